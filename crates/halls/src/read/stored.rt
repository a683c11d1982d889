// Geometries and models as they lie in the sections, seen as what is read of them, and those of a list, one after another.
ghost use Rattle.std.specs.Prelude.{◌≡◌, ◌<◌, ◌*◌, ◌/◌, ◌^◌, length};
ghost use Rattle.std.specs.Option.{option_copied};
ghost use Rattle.std.specs.Iterator.{YieldsFirst, item_count};
ghost use Rattle.sections.specs.Address.{sections_of};
ghost use Rattle.halls.specs.Blocks.{model_block};
ghost use Rattle.halls.specs.Inner.Measure.{list_bytes, whole_numbers};
ghost use Rattle.halls.specs.Inner.Taking.{as_halls};
ghost use Rattle.halls.specs.Inner.View.{ListsOf, models_at, geometries_behind};

use crate::format::numbers::ModelNumbers;
use crate::read::entries::{Entries, Pointers};
use crate::read::limited::Limited;
use crate::read::parts::{StoredIndices, WholeGeometry};
use crate::read::pointers::list_bytes;
use crate::read::view::{GeometryView, geometry_view, indices_at, vertices_at};
use sections::{ResReader, u16_le, u32_le, u64_le};
use std::marker::Model;

// The block of a geometry that resolved.
#[derive(Drop)]
pub struct StoredGeometry<'b, 'a> {
    limited: Limited<'b, 'a>,
    raw: &'a [u8],
    shader: u16,
}

impl<'b, 'a> Model for StoredGeometry<'b, 'a> {
    ghost use Rattle.sections.specs.Address.{sections_of};
    ghost use Rattle.halls.specs.Blocks.{geometry_block};
    ghost use Rattle.halls.specs.List.{Geometry};
    ghost use Rattle.halls.specs.Reading.{geometry_of};

    ghost Value = { Geometry };

    ghost view = { λ g. geometry_of (sections_of g.limited.reader.now) g.shader (geometry_block g.raw.now) };
}

impl<'b, 'a> StoredGeometry<'b, 'a> {
    pub fn shader(&self) -> u16
        ensures { result ≡ self.now.shader }
    {
        self.shader
    }

    pub fn view(&self) -> HeldGeometry<'b, 'a>
        ensures { result ≡ self.now }
    {
        HeldGeometry {
            limited: self.limited,
            view: geometry_view(self.limited.reader, self.raw, self.shader),
        }
    }
}

// The view of a geometry, whose places hold what it says.
#[derive(Drop)]
pub struct HeldGeometry<'b, 'a> {
    pub limited: Limited<'b, 'a>,
    pub view: GeometryView,
}

impl<'b, 'a> Model for HeldGeometry<'b, 'a> {
    ghost use Rattle.sections.specs.Address.{sections_of};
    ghost use Rattle.halls.specs.Inner.Taking.{geometry_shown};
    ghost use Rattle.halls.specs.Inner.View.{ViewHeld};
    ghost use Rattle.halls.specs.List.{Geometry};

    ghost Value = { Geometry };

    ghost view = { λ g. geometry_shown (sections_of g.limited.reader.now) g.view };

    ghost invariant = { λ g. ViewHeld (sections_of g.limited.reader.now) g.view };
}

impl<'b, 'a> HeldGeometry<'b, 'a> {
    pub fn indices(&self) -> Option<StoredIndices<'a>>
        ensures { result ≡ self.now.indices }
    {
        let view = self.view.indices?;
        let bytes = indices_at(self.limited.reader, view);
        Some(StoredIndices { view, bytes })
    }

    // As a hall has it, where it has vertices and indices. Inline, so that its parts are not copied for each geometry.
    #[inline(always)]
    pub fn whole(&self) -> Option<WholeGeometry<'a>>
        ensures { result ≡ as_halls self.now }
    {
        let buffer = self.view.buffer?;
        let indices = self.indices()?;
        let content = vertices_at(self.limited.reader, buffer);
        Some(WholeGeometry {
            numbers: self.view.numbers,
            buffer,
            content,
            indices,
        })
    }
}

// The geometries of a list whose blocks resolve. Geometries and models stay two iterators: as one over a trait of what lies behind an entry the proof did not
// close. A bound such as `T: Behind<'b, 'a>` names two lifetimes, and the check does not cover a call by one.
#[derive(Drop)]
pub struct Geometries<'b, 'a> {
    limited: Limited<'b, 'a>,
    entries: Entries<'a>,
}

impl<'b, 'a> Model for Geometries<'b, 'a> {
    ghost use Rattle.std.specs.Prelude.{List};
    ghost use Rattle.sections.specs.Address.{sections_of};
    ghost use Rattle.halls.specs.Inner.View.{geometries_behind};
    ghost use Rattle.halls.specs.List.{Geometry};

    ghost Value = { List Geometry };

    ghost view = { λ g. geometries_behind (sections_of g.limited.reader.now) g.entries };
}

impl<'b, 'a> Iterator for Geometries<'b, 'a> {
    type Item = StoredGeometry<'b, 'a>;

    ghost next_gives = { YieldsFirst (λ rest. rest) };

    ghost remaining = { item_count (λ rest. rest) };

    // Not by `find_map`: of its closure the check knows whole runs only, and did not prove which items are left.
    fn next(&mut self) -> Option<StoredGeometry<'b, 'a>> {
        while let Some(entry) = self.entries.next() {
            if let Some(raw) = self.limited.reader.resolve(entry.pointer, 0x98) {
                return Some(StoredGeometry {
                    limited: self.limited,
                    raw,
                    shader: entry.shader,
                });
            }
        }
        None
    }
}

// The bytes of a model's two lists. A mapping that does not resolve is empty.
#[derive(Clone, Copy)]
pub struct ModelLists<'a> {
    pub pointers: Option<&'a [u8]>,
    pub mapping: &'a [u8],
}

impl<'a> ModelLists<'a> {
    // Those of a model's 0x30 bytes. Inline: called for each model, and a call takes longer than what it does for one without geometries.
    #[inline(always)]
    pub fn of(reader: &ResReader<'a>, raw: &[u8]) -> Self
        ensures { ListsOf (sections_of reader.now) (model_block raw.now) (option_copied result.pointers) result.mapping.now }
    {
        let count = u32::from(u16_le(raw, 0x10));
        ModelLists {
            pointers: list_bytes(reader, 8, count, u64_le(raw, 0x08)),
            mapping: list_bytes(reader, 2, count, u64_le(raw, 0x20)).unwrap_or(&[]),
        }
    }
}

// The block of a model that resolved, with its lists.
#[derive(Drop)]
pub struct StoredModel<'b, 'a> {
    limited: Limited<'b, 'a>,
    raw: &'a [u8],
    lists: ModelLists<'a>,
}

impl<'b, 'a> Model for StoredModel<'b, 'a> {
    ghost use Rattle.std.specs.Option.{option_copied};
    ghost use Rattle.sections.specs.Address.{sections_of};
    ghost use Rattle.halls.specs.Blocks.{model_block};
    ghost use Rattle.halls.specs.Inner.View.{ListsOf, model_of};
    ghost use Rattle.halls.specs.List.{Model};

    ghost Value = { Model };

    ghost view = { λ m. model_of (sections_of m.limited.reader.now) (model_block m.raw.now) };

    ghost invariant = { λ m. ListsOf (sections_of m.limited.reader.now) (model_block m.raw.now) (option_copied m.lists.pointers) m.lists.mapping.now };
}

impl<'b, 'a> StoredModel<'b, 'a> {
    pub fn numbers(&self) -> ModelNumbers
        ensures binding { result.binding ≡ self.now.binding }
        ensures mask { result.mask ≡ self.now.mask }
    {
        ModelNumbers {
            binding: u32_le(self.raw, 0x28),
            mask: u16_le(self.raw, 0x2C),
        }
    }

    pub fn mapping(&self) -> &'a [u8]
        ensures numbers { whole_numbers 2 result.now ≡ self.now.mapping }
        ensures even { length result.now / 2 * 2 ≡ length result.now }
        ensures few { length result.now < 2 ^ 20 }
    {
        self.lists.mapping
    }

    pub fn geometries(&self) -> Geometries<'b, 'a>
        ensures those { result ≡ self.now.geometries }
        ensures few { length result < 2 ^ 16 }
    {
        let lists = self.lists;
        Geometries {
            limited: self.limited,
            entries: Entries::new(lists.pointers.unwrap_or(&[]), lists.mapping),
        }
    }
}

// The models of a list whose blocks resolve.
#[derive(Drop)]
pub struct Models<'b, 'a> {
    limited: Limited<'b, 'a>,
    pointers: Pointers<'a>,
}

impl<'b, 'a> Model for Models<'b, 'a> {
    ghost use Rattle.std.specs.Prelude.{List};
    ghost use Rattle.sections.specs.Address.{sections_of};
    ghost use Rattle.halls.specs.Inner.View.{models_at};
    ghost use Rattle.halls.specs.List.{Model};

    ghost Value = { List Model };

    ghost view = { λ m. models_at (sections_of m.limited.reader.now) m.pointers };
}

impl<'b, 'a> Models<'b, 'a> {
    pub fn new(limited: &Limited<'b, 'a>, pointers: &'a [u8]) -> Self
        ensures { result ≡ models_at (sections_of limited.now.reader.now) (whole_numbers 8 pointers.now) }
    {
        Models {
            limited: *limited,
            pointers: Pointers::new(pointers),
        }
    }
}

impl<'b, 'a> Iterator for Models<'b, 'a> {
    type Item = StoredModel<'b, 'a>;

    ghost next_gives = { YieldsFirst (λ rest. rest) };

    ghost remaining = { item_count (λ rest. rest) };

    // Not by `find_map`, for the reason given at the geometries.
    // Inline, for the same reason as the lists of a model.
    #[inline(always)]
    fn next(&mut self) -> Option<StoredModel<'b, 'a>> {
        while let Some(pointer) = self.pointers.next() {
            if let Some(raw) = self.limited.reader.resolve(pointer, 0x30) {
                return Some(StoredModel {
                    limited: self.limited,
                    raw,
                    lists: ModelLists::of(self.limited.reader, raw),
                });
            }
        }
        None
    }
}
