// Little-endian fields of a byte slice. A read that does not fit is 0; a write that does not fit changes nothing and
// answers false. Each width has its name, and a read past the end is 0, as in the original. A write takes the slice and a place, not a part of the slice: its
// contract says what becomes of all of it.
ghost use Rattle.std.specs.Prelude.{◌≡◌, cond, Some, None};
ghost use Rattle.sections.specs.Edit.{part, fits, Edited};
ghost use Rattle.sections.specs.Le.{bytes, field};

use crate::range::ends_inside;

// One byte, as a field of width 1.
pub fn u8_le(b: &[u8], off: usize) -> u8
    ensures { result ≡ field 1 b.now off }
{
    b.get(off).copied().unwrap_or(0)
}

pub fn u16_le(b: &[u8], off: usize) -> u16
    ensures { result ≡ field 2 b.now off }
{
    bytes_at(b, off).map_or(0, u16::from_le_bytes)
}

pub fn u32_le(b: &[u8], off: usize) -> u32
    ensures { result ≡ field 4 b.now off }
{
    bytes_at(b, off).map_or(0, u32::from_le_bytes)
}

pub fn u64_le(b: &[u8], off: usize) -> u64
    ensures { result ≡ field 8 b.now off }
{
    bytes_at(b, off).map_or(0, u64::from_le_bytes)
}

pub fn put_u8_le(b: &mut [u8], off: usize, v: u8) -> bool
    ensures { Edited (fits b.old off 1) b.old off (bytes 1 v) result b.new }
{
    put_bytes(b, off, [v])
}

pub fn put_u16_le(b: &mut [u8], off: usize, v: u16) -> bool
    ensures { Edited (fits b.old off 2) b.old off (bytes 2 v) result b.new }
{
    put_bytes(b, off, u16::to_le_bytes(v))
}

pub fn put_u32_le(b: &mut [u8], off: usize, v: u32) -> bool
    ensures { Edited (fits b.old off 4) b.old off (bytes 4 v) result b.new }
{
    put_bytes(b, off, u32::to_le_bytes(v))
}

pub fn put_u64_le(b: &mut [u8], off: usize, v: u64) -> bool
    ensures { Edited (fits b.old off 8) b.old off (bytes 8 v) result b.new }
{
    put_bytes(b, off, u64::to_le_bytes(v))
}

// The N bytes from `off` on, if they end inside the slice.
fn bytes_at<const N: usize>(b: &[u8], off: usize) -> Option<[u8; N]>
    ensures { result ≡ cond (fits b.now off N) (Some (part b.now off N)) None }
{
    b.get(off..)?.first_chunk().copied()
}

// The N bytes v from `off` on, if they end inside the slice: at most 8, so not in blocks as `copy_into` copies.
fn put_bytes<const N: usize>(b: &mut [u8], off: usize, v: [u8; N]) -> bool
    ensures { Edited (fits b.old off N) b.old off v.entry result b.new }
{
    if !ends_inside(off, N, b.len()) {
        return false;
    }
    b[off..off + N].copy_from_slice(&v);
    true
}
