// Parts of a geometry as they lie in the sections, seen as what is read of them. Their bytes are as long as the view says.
ghost use Rattle.std.specs.Prelude.{◌≡◌, ◌<◌, ◌^◌, length};

use crate::format::numbers::GeometryNumbers;
use crate::read::view::{IndexView, held};
use std::marker::Model;
use vertices::VertexBuffer;

#[derive(Drop)]
pub struct StoredIndices<'a> {
    pub view: IndexView,
    pub bytes: &'a [u8],
}

impl<'a> Model for StoredIndices<'a> {
    ghost use Rattle.halls.specs.Inner.View.{HeldIn, indices_in};
    ghost use Rattle.halls.specs.List.{Indices};

    ghost Value = { Indices };

    ghost view = { λ i. indices_in i.view i.bytes.now };

    ghost invariant = { λ i. HeldIn i.view i.bytes.now };
}

impl<'a> StoredIndices<'a> {
    // The stored count, of which none may be held.
    pub fn count(&self) -> u32
        ensures { result ≡ self.now.count }
    {
        self.view.count
    }

    pub fn held(&self) -> u32
        ensures { (result ≡ length self.now.items) × (result < 2 ^ 29) }
    {
        held(self.view)
    }
}

// A geometry that has vertices and indices, as a hall has it.
#[derive(Drop)]
pub struct WholeGeometry<'a> {
    pub numbers: GeometryNumbers,
    pub buffer: VertexBuffer,
    pub content: &'a [u8],
    pub indices: StoredIndices<'a>,
}

impl<'a> Model for WholeGeometry<'a> {
    ghost use Rattle.std.specs.Prelude.{◌<◌, ◌^◌, length};
    ghost use Rattle.halls.specs.Hall.{FullGeometry};
    ghost use Rattle.halls.specs.Inner.Taking.{full_shown};

    ghost Value = { FullGeometry };

    ghost view = { λ g. full_shown g.numbers g.buffer g.content.now g.indices };

    ghost invariant = { λ g. length g.content.now < 2 ^ 31 };
}
