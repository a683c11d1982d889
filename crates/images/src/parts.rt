// Parts of an image: each starts at a multiple of 16, with zeros up to the next.
ghost use Rattle.std.specs.Prelude.{◌≡◌, ◌+◌, ◌-◌, ◌≤◌, ◌^◌, length};
ghost use Rattle.sections.specs.Edit.{overwrite};
ghost use Rattle.halls.specs.ImageSize as size;
ghost use Rattle.images.specs.Image.{base, filled, pointer_to, zeros};

use sections::{SYSTEM_BASE, copy_into, zero};

// How long a geometry or a model is, or several: bytes in the list, and in the image.
#[derive(Clone, Copy)]
pub struct Measured {
    pub length: usize,
    pub size: usize,
}

// n up to a multiple of 16.
pub fn padded(n: usize) -> usize
    requires { n ≤ 2 ^ 60 }
    ensures { result ≡ size.padded n }
{
    n.next_multiple_of(16)
}

// The address of what lies at an offset in the image.
pub fn address_of(at: usize) -> u64
    requires { at ≤ 67108864 }
    ensures { result ≡ base + at }
{
    SYSTEM_BASE + at as u64
}

// The address of a list; an empty list has pointer 0.
pub fn pointer_to(count: usize, at: usize) -> u64
    requires { at ≤ 67108864 }
    ensures { result ≡ pointer_to count at }
{
    if count == 0 {
        return 0;
    }
    address_of(at)
}

// The zeros behind a part of n bytes.
pub fn put_gap(out: &mut [u8], at: usize, n: usize)
    requires { (n ≤ 2 ^ 60) × (at + size.padded n ≤ length out.old) }
    ensures { out.new ≡ overwrite out.old (at + n) (zeros (size.padded n - n)) }
{
    zero(out, at + n, padded(n) - n);
}

// A part that is a copy.
pub fn put_copy(out: &mut [u8], at: usize, part: &[u8])
    requires { (length part.now ≤ 2 ^ 60) × (at + size.padded (length part.now) ≤ length out.old) }
    ensures { out.new ≡ overwrite out.old at (filled part.now) }
{
    copy_into(out, at, part);
    put_gap(out, at, part.len());
}
