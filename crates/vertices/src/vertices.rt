// Vertices as a buffer stores them.
ghost use Rattle.std.specs.Prelude.{◌≡◌, ◌*◌, ◌<◌};

use crate::declaration::VertexDeclaration;

// `count` vertices, which begin `stride` bytes apart and are read by the declaration.
#[derive(Clone, Copy)]
pub struct Vertices<'a> {
    pub data: &'a [u8],
    pub stride: u16,
    pub count: u32,
    pub declaration: VertexDeclaration,
}

impl<'a> Vertices<'a> {
    // Where a vertex starts.
    pub(crate) fn base_of(self, index: usize) -> usize
        requires { index < 4294967296 }
        ensures { (result ≡ index * self.entry.stride) × (result < 281474976710656) }
    {
        index * usize::from(self.stride)
    }
}
