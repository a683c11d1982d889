// The attributes of one vertex, one after another.
ghost use Rattle.std.specs.Prelude.{◌≡◌, ◌<◌, length};
ghost use Rattle.std.specs.Iterator.{YieldsFirst, item_count};
ghost use Rattle.vertices.specs.Attribute.{attribute_check, attributes_of, component_inside};

use crate::attribute::{VertexAttribute, attribute_at};
use crate::components::Components;
use crate::types::VertexComponent;
use crate::vertices::Vertices;
use std::marker::Model;
use std::{error, fmt};

// Why a vertex has no attributes that can be read.
#[derive(Clone, Copy, Debug, PartialEq, Eq)]
pub enum AttributeError {
    NoSuchVertex,
    ComponentOutside,
}

impl AttributeError {
    // The number of the check that failed.
    pub fn check(self) -> u8
        ensures { result ≡ attribute_check self }
    {
        match self {
            Self::NoSuchVertex => 8,
            Self::ComponentOutside => 9,
        }
    }
}

impl fmt::Display for AttributeError {
    fn fmt<W: fmt::Write>(&self, f: &mut fmt::Formatter<W>) -> fmt::Result {
        match self {
            Self::NoSuchVertex => f.write_str("there is no such vertex"),
            Self::ComponentOutside => f.write_str("a component does not end inside the data"),
        }
    }
}

impl error::Error for AttributeError {}

// The attributes of the components that are still to come, of the vertex that begins at `base`, seen as the list of them.
#[derive(Clone, Drop)]
pub struct Attributes<'a> {
    data: &'a [u8],
    base: usize,
    components: Components,
}

impl<'a> Model for Attributes<'a> {
    ghost use Rattle.std.specs.Prelude.{List, map, ◌≡◌, ◌<◌, true, length};
    ghost use Rattle.vertices.specs.Attribute.{all_inside, attribute_at};
    ghost use Rattle.vertices.specs.declared.attribute.VertexAttribute.{VertexAttribute};

    ghost Value = { List VertexAttribute };

    ghost view = { λ a. map (attribute_at a.«data».now a.base) a.components };

    ghost invariant = { λ a. (a.base < 281474976710656) × (all_inside (length a.«data».now) a.base a.components ≡ true) };
}

impl<'a> Iterator for Attributes<'a> {
    type Item = VertexAttribute;

    ghost next_gives = { YieldsFirst (λ rest. rest) };

    ghost remaining = { item_count (λ rest. rest) };

    fn next(&mut self) -> Option<VertexAttribute> {
        let component = self.components.next()?;
        Some(attribute_at(self.data, self.base, component))
    }
}

impl<'a> ExactSizeIterator for Attributes<'a> {
    fn len(&self) -> usize {
        self.components.len()
    }
}

// The components of one vertex, each beside its value. Check 8: there is such a vertex. Check 9: every component that has bytes lies
// inside the data.
pub fn read_vertex_attributes<'a>(
    vertices: Vertices<'a>,
    index: u64,
) -> Result<Attributes<'a>, AttributeError>
    ensures { result ≡ attributes_of vertices.entry.«data».now vertices.entry.stride vertices.entry.count vertices.entry.declaration index }
{
    if index >= u64::from(vertices.count) {
        return Err(AttributeError::NoSuchVertex);
    }
    let data = vertices.data;
    let base = vertices.base_of(index as usize);
    let inside = vertices
        .declaration
        .components()
        .all(|component| component_inside(data, base, component));
    if !inside {
        return Err(AttributeError::ComponentOutside);
    }
    Ok(Attributes {
        data,
        base,
        components: vertices.declaration.components(),
    })
}

fn component_inside(data: &[u8], base: usize, component: VertexComponent) -> bool
    requires { base < 281474976710656 }
    ensures { result ≡ component_inside (length «data».now) base component }
{
    let size = usize::from(component.component_type.size_in_bytes());
    size == 0 || base + usize::from(component.offset) + size <= data.len()
}
