// The components of a declaration, one after another.
ghost use Rattle.std.specs.Prelude.{◌≡◌};
ghost use Rattle.std.specs.Iterator.{YieldsFirst, item_count};
ghost use Rattle.vertices.specs.Declaration.{component_at, components_from};

use crate::types::{VertexComponent, VertexComponentType, VertexSemantic};
use std::marker::Model;

// The components of the flags from `index` to 15 that are set, seen as the list of them. The lowest flag and type nibble are those of
// `index`, and the next component stands at `offset`.
#[derive(Clone, Drop)]
pub struct Components {
    index: u8,
    flags: u32,
    types: u64,
    offset: u16,
}

impl Model for Components {
    ghost use Rattle.std.specs.Prelude.{List, ◌-◌, ◌*◌, ◌≤◌};
    ghost use Rattle.vertices.specs.Declaration.{components_from};
    ghost use Rattle.vertices.specs.declared.types.VertexComponent.{VertexComponent};

    ghost Value = { List VertexComponent };

    ghost view = { λ c. components_from (16 - c.index) c.index c.flags c.types c.offset };

    ghost invariant = { λ c. (c.index ≤ 16) × (c.offset ≤ 16 * c.index) };
}

impl Components {
    // Those of the flags 0 to 15.
    pub(crate) fn new(flags: u32, types: u64) -> Self
        ensures { result ≡ components_from 16 0 flags types 0 }
    {
        Components {
            index: 0,
            flags,
            types,
            offset: 0,
        }
    }
}

impl Iterator for Components {
    type Item = VertexComponent;

    ghost next_gives = { YieldsFirst (λ rest. rest) };

    ghost remaining = { item_count (λ rest. rest) };

    // A `while`: of `(self.index..16).find_map(..)` the sums in its closure were not proved to fit, and `for index in self.index..16` has the place twice.
    fn next(&mut self) -> Option<VertexComponent> {
        while self.index < 16 && self.flags != 0 {
            let index = self.index;
            let set = self.flags % 2 == 1;
            let nibble = (self.types % 16) as u8;
            self.index += 1;
            self.flags /= 2;
            self.types /= 16;
            if set {
                let component = component_at(index, nibble, self.offset);
                self.offset += u16::from(component.size);
                return Some(component);
            }
        }
        None
    }
}

impl ExactSizeIterator for Components {
    // Field by field: `clone` may fail here, and `Copy` is not to be had with a view that does not give the fields back.
    fn len(&self) -> usize {
        let rest = Components {
            index: self.index,
            flags: self.flags,
            types: self.types,
            offset: self.offset,
        };
        rest.count()
    }
}

fn component_at(index: u8, nibble: u8, offset: u16) -> VertexComponent
    ensures { result ≡ component_at index nibble offset }
{
    let component_type = VertexComponentType::from_nibble(nibble);
    VertexComponent {
        semantic: VertexSemantic::from_index(index),
        semantic_index: index,
        component_type,
        offset,
        size: component_type.size_in_bytes(),
        component_count: component_type.component_count(),
    }
}
