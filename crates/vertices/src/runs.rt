// Runs of numbers, as little-endian bytes, converted one by one.
//
// Floats are converted to halves in blocks of 64. A block in which each is below 65,536 needs no test for infinity and NaN: without this test of blocks, large
// runs of usual floats took 0.34 to 0.36 of the original's time in five runs, where 0.35 is wanted, and missed it in three.
ghost use Rattle.std.specs.Prelude.{◌≡◌, ℕ, ◌+◌, ◌*◌, ◌%◌, ◌≤◌, ◌<◌, length};
ghost use Rattle.sections.specs.Edit.{part};
ghost use Rattle.sections.specs.Le.{le};
ghost use Rattle.vertices.specs.Half.{f16_to_f32, f32_to_f16};
ghost use Rattle.vertices.specs.Runs.{Converted};
ghost use Rattle.vertices.specs.Inner.Capped.{Capped, Makes, Placed, Room, fitting};

use crate::halves::{INFINITE, f16_to_f32, f32_to_f16, small_f32_to_f16};
use crate::known::Stored;
use crate::values::SIGN;
use std::{error, fmt};

// Floats of a block.
const FLOATS: usize = 64;

// How many bytes an output that is too short would have to have.
#[derive(Clone, Copy, Debug, PartialEq, Eq)]
pub struct NeedsBytes(pub usize);

impl fmt::Display for NeedsBytes {
    fn fmt<W: fmt::Write>(&self, f: &mut fmt::Formatter<W>) -> fmt::Result {
        write!(f, "the output needs {} bytes", self.0)
    }
}

impl error::Error for NeedsBytes {}

// The bytes needed, where so many are at hand.
pub fn fitting(needed: usize, room: usize) -> Result<usize, NeedsBytes>
    ensures { result ≡ fitting needed room }
{
    if needed <= room {
        return Ok(needed);
    }
    Err(NeedsBytes(needed))
}

// The whole numbers of src, for each of which dst has room.
fn numbers_of<S: Stored, T: Stored>(src: &[u8], dst: &[u8]) -> Result<usize, NeedsBytes>
    ensures { Room S.WIDTH T.WIDTH src.now dst.now result }
{
    let n = src.len() / S::WIDTH;
    fitting(n.saturating_mul(T::WIDTH), dst.len())?;
    Ok(n)
}

// All whole numbers of src, over the first bytes of dst.
pub fn convert_all<S: Stored, T: Stored, F: Fn(S) -> T>(
    convert: F,
    src: &[u8],
    dst: &mut [u8],
) -> Result<usize, NeedsBytes>
    requires { (x : S) → F.pre convert x }
    ensures { (f : ℕ → ℕ) → Makes (F.post convert) S.number T.number f → Capped S.WIDTH T.WIDTH f src.now dst.old result dst.new }
{
    let n = numbers_of::<S, T>(src, dst)?;
    convert_each(convert, src, dst, 0, n);
    Ok(n * T::WIDTH)
}

// n numbers from the one with the index `first` on, each to the place with its own index. By index: for `chunks_exact` both slices would have to be cut to
// those n numbers before. `as_chunks` wants its width as a constant argument, which the width of a generic `Stored` cannot be.
fn convert_each<S: Stored, T: Stored, F: Fn(S) -> T>(
    convert: F,
    src: &[u8],
    dst: &mut [u8],
    first: usize,
    n: usize,
)
    requires source { (first + n) * S.WIDTH ≤ length src.now }
    requires room { (first + n) * T.WIDTH ≤ length dst.old }
    requires takes { (i : ℕ) (x : S) → i < n → S.number x ≡ le (part src.now ((first + i) * S.WIDTH) S.WIDTH) → F.pre convert x }
    ensures { (f : ℕ → ℕ) → Makes (F.post convert) S.number T.number f → Placed S.WIDTH T.WIDTH f first n src.now dst.old dst.new }
{
    for i in 0..n {
        let x = S::get(src, (first + i) * S::WIDTH);
        convert(x).set(dst, (first + i) * T::WIDTH);
    }
}

// The floats of the halves in src over the first bytes of dst. An odd last byte of src is not read.
pub fn halves_to_floats(src: &[u8], dst: &mut [u8]) -> Result<usize, NeedsBytes>
    ensures { Converted 2 4 f16_to_f32 src.now dst.old result dst.new }
{
    convert_all(f16_to_f32, src, dst)
}

// The halves of the floats in src over the first bytes of dst. Up to three last bytes of src that make no float are not read.
pub fn floats_to_halves(src: &[u8], dst: &mut [u8]) -> Result<usize, NeedsBytes>
    ensures { Converted 4 2 f32_to_f16 src.now dst.old result dst.new }
{
    let n = numbers_of::<u32, u16>(src, dst)?;
    encode_run(src, dst, n);
    Ok(n * 2)
}

// The first n floats, whole blocks and then the others.
fn encode_run(src: &[u8], dst: &mut [u8], n: usize)
    requires { (n * 4 ≤ length src.now) × (n * 2 ≤ length dst.old) }
    ensures { Placed 4 2 f32_to_f16 0 n src.now dst.old dst.new }
{
    let rest = n / FLOATS * FLOATS;
    for first in (0..rest).step_by(FLOATS) {
        encode_block(src, dst, first);
    }
    convert_each(f32_to_f16, src, dst, rest, n - rest);
}

// A block, from the number with the index `first` on.
fn encode_block(src: &[u8], dst: &mut [u8], first: usize)
    requires { ((first + 64) * 4 ≤ length src.now) × ((first + 64) * 2 ≤ length dst.old) }
    ensures { Placed 4 2 f32_to_f16 first 64 src.now dst.old dst.new }
{
    if greatest_size(src, first) < INFINITE {
        convert_each(small_f32_to_f16, src, dst, first, FLOATS);
        return;
    }
    convert_each(f32_to_f16, src, dst, first, FLOATS);
}

// The greatest size in a block, as the bits below the sign: an infinity's and a NaN's are above all others.
fn greatest_size(src: &[u8], first: usize) -> u32
    requires { (first + 64) * 4 ≤ length src.now }
    ensures { (i : ℕ) → i < 64 → le (part src.now ((first + i) * 4) 4) % 2147483648 ≤ result }
{
    let mut greatest: u32 = 0;
    for i in 0..FLOATS {
        greatest = greatest.max(u32::get(src, (first + i) * 4) % SIGN);
    }
    greatest
}
