// Lists of indices, three of them a triangle: of four bytes each, of two, or as a caller lends them.
ghost use Rattle.std.specs.Prelude.{◌≡◌, List, ℕ, ◌+◌, ◌*◌, ◌/◌, ◌≤◌, length};
ghost use Rattle.sections.specs.Edit.{part};
ghost use Rattle.sections.specs.Le.{le};
ghost use Rattle.vertices.specs.Runs.{numbers};
ghost use Rattle.halls.specs.Inner.Counting.{triangle_in};

use crate::check::triangle::Triangle;
use crate::format::fields::{u16_at, u32_at};
use std::marker::PhantomData;

pub trait IndexList: Copy {
    ghost indices: { Self → List ℕ };

    fn triangle(self, i: usize) -> Triangle
        requires { 3 * i + 3 ≤ length (indices self) }
        ensures { result ≡ triangle_in (indices self) i };
}

// How an index is stored: in two bytes or in four. Read as four-byte numbers either way: comparing two-byte ones was slower (docs/PERFORMANCE.md).
pub trait StoredIndex: Copy {
    ghost WIDTH: { ℕ };

    fn nth(b: &[u8], i: usize) -> u32
        requires { (i + 1) * WIDTH ≤ length b.now }
        ensures { result ≡ le (part b.now (i * WIDTH) WIDTH) };
}

impl StoredIndex for u16 {
    ghost WIDTH = { 2 };

    fn nth(b: &[u8], i: usize) -> u32 {
        u32::from(u16_at(b, i * 2))
    }
}

impl StoredIndex for u32 {
    ghost WIDTH = { 4 };

    fn nth(b: &[u8], i: usize) -> u32 {
        u32_at(b, i * 4)
    }
}

#[derive(Clone, Copy)]
pub struct ByteIndices<'a, W> {
    bytes: &'a [u8],
    stored: PhantomData<W>,
}

impl<'a, W> ByteIndices<'a, W> {
    pub fn of(bytes: &'a [u8]) -> ByteIndices<'a, W>
        ensures { result.bytes.now ≡ bytes.now }
    {
        ByteIndices {
            bytes,
            stored: PhantomData,
        }
    }
}

impl<'a, W: StoredIndex> IndexList for ByteIndices<'a, W> {
    ghost indices = { λ s. numbers W.WIDTH (length s.bytes.now / W.WIDTH) s.bytes.now };

    fn triangle(self, i: usize) -> Triangle {
        let first = i * 3;
        Triangle {
            a: W::nth(self.bytes, first),
            b: W::nth(self.bytes, first + 1),
            c: W::nth(self.bytes, first + 2),
        }
    }
}

impl<'a> IndexList for &'a [u32] {
    ghost indices = { λ s. s.now };

    fn triangle(self, i: usize) -> Triangle {
        let at = i * 3;
        Triangle {
            a: self[at],
            b: self[at + 1],
            c: self[at + 2],
        }
    }
}
