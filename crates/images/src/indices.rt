// Four-byte indices as two-byte ones, two at a time. The loop tests no range and reads numbers before it writes them: so the compiler
// narrows several at once. One index a turn takes 2.4 times as long, where save is to take at most 1.3 of a `memcpy` of the image, 1.8 where
// most of it is indices (docs/PERFORMANCE.md).
//
// How many they are is given beside the bytes: counted from them, each clause has `length raw.now / 4` in the place of n, and that a geometry's
// indices are those of a part of its bytes is one law more.
ghost use Rattle.std.specs.Prelude.{◌≡◌, ◌+◌, ◌*◌, ◌%◌, ◌≤◌, ◌^◌, length};
ghost use Rattle.sections.specs.Edit.{part, overwrite};
ghost use Rattle.sections.specs.Le.{le, bytes};
ghost use Rattle.vertices.specs.Runs.{numbers, run};
ghost use Rattle.halls.specs.ImageSize as size;
ghost use Rattle.images.specs.Image.{filled};

use crate::parts::put_gap;

// The first n indices in `raw`, as a part of the image.
pub fn put_indices(out: &mut [u8], at: usize, raw: &[u8], n: usize)
    requires { (n * 4 ≤ length raw.now) × (n ≤ 2 ^ 32) × (at + size.padded (2 * n) ≤ length out.old) }
    ensures { out.new ≡ overwrite out.old at (filled (run 2 (numbers 4 n raw.now))) }
{
    put_narrowed(out, at, raw, n);
    put_gap(out, at, 2 * n);
}

fn put_narrowed(out: &mut [u8], at: usize, raw: &[u8], n: usize)
    requires { (n * 4 ≤ length raw.now) × (at + n * 2 ≤ length out.old) }
    ensures { out.new ≡ overwrite out.old at (run 2 (numbers 4 n raw.now)) }
{
    let pairs = n / 2;
    put_pairs(out, at, raw, pairs);
    if pairs * 2 == n {
        return;
    }
    set_u16(out, at + pairs * 4, low_half(u32_at(raw, pairs * 8)));
}

// The first 2 n of them.
fn put_pairs(out: &mut [u8], at: usize, raw: &[u8], n: usize)
    requires { (n * 8 ≤ length raw.now) × (at + n * 4 ≤ length out.old) }
    ensures { out.new ≡ overwrite out.old at (run 2 (numbers 4 (n * 2) raw.now)) }
{
    for i in 0..n {
        let first = u32_at(raw, i * 8);
        let second = u32_at(raw, i * 8 + 4);
        set_u32(out, at + i * 4, low_halves(first, second));
    }
}

fn low_half(a: u32) -> u16
    ensures { result ≡ a % 65536 }
{
    (a % 65536) as u16
}

fn low_halves(a: u32, b: u32) -> u32
    ensures { result ≡ a % 65536 + b % 65536 * 65536 }
{
    a % 65536 + b % 65536 * 65536
}

// Fields that are known to fit, of this crate: what another crate calls asks nothing of its caller.

fn u32_at(b: &[u8], off: usize) -> u32
    requires { off + 4 ≤ length b.now }
    ensures { result ≡ le (part b.now off 4) }
{
    u32::from_le_bytes([b[off], b[off + 1], b[off + 2], b[off + 3]])
}

fn set_u16(b: &mut [u8], off: usize, v: u16)
    requires { off + 2 ≤ length b.old }
    ensures { b.new ≡ overwrite b.old off (bytes 2 v) }
{
    b[off..off + 2].copy_from_slice(&v.to_le_bytes());
}

fn set_u32(b: &mut [u8], off: usize, v: u32)
    requires { off + 4 ≤ length b.old }
    ensures { b.new ≡ overwrite b.old off (bytes 4 v) }
{
    b[off..off + 4].copy_from_slice(&v.to_le_bytes());
}
