// A geometry added at the end of a hall's last model.
ghost use Rattle.std.specs.Prelude.{◌≡◌, ◌++◌, ◌+◌, ◌*◌, ◌-◌, ◌^◌, ◌≤◌, ◌<◌, length};
ghost use Rattle.sections.specs.Edit.{part, overwrite};
ghost use Rattle.sections.specs.Le.{bytes};
ghost use Rattle.halls.specs.Calls.{given_in, given_geometry, add_geometry};
ghost use Rattle.halls.specs.Hall.{listed_geometry};
ghost use Rattle.halls.specs.Inner.Judging.{given_lowest};
ghost use Rattle.halls.specs.List.{write_geometry};
ghost use Rattle.halls.specs.Inner.Walk.{model_units, geometry_units};
ghost use Rattle.halls.specs.Step.{Stepped};

use crate::answer::{Refusal, room};
use crate::check::check::survey_first;
use crate::check::geometry::{MOST_VERTICES, components_inside};
use crate::check::order::verdict_of;
use crate::check::pass::{Summary, limits_lowest};
use crate::check::scan::lent_indices_lowest;
use crate::check::sought::GeometryId;
use crate::format::front::{GeometryShape, entries_of, model_units};
use crate::format::numbers::GeometryNumbers;
use crate::format::record::{VertexBytes, put_full};
use sections::{copy_within, put_u16_le, put_u32_le, u32_le};
use vertices::{VertexBufferLayout, VertexDeclaration};

// A geometry as a caller gives it: `content` are the bytes of `count` vertices.
#[derive(Clone, Copy)]
pub struct GivenGeometry<'a> {
    pub shader: u16,
    pub declaration: VertexDeclaration,
    pub stride: u16,
    pub count: u32,
    pub content: &'a [u8],
    pub indices: &'a [u32],
}

// Adds it to the hall of the first n bytes; check 21 where the hall has no model.
pub fn add_geometry(hall: &mut [u8], n: usize, given: GivenGeometry) -> Result<u64, Refusal>
    ensures { Stepped (add_geometry (given_in given.entry)) hall.old n result hall.new }
{
    let found = survey_first(hall, n, GeometryId::first_of_last())?;
    let summary = found.summary;
    let last = summary.models.saturating_sub(1) as u64;
    let place = found.nearest.place_of(last).ok_or(Refusal::by(21))?;
    let size = u32_le(hall, place);
    let entries = entries_of(&hall[place..]);
    let shape = GeometryShape {
        content: given.content.len(),
        held: given.indices.len(),
    };
    let grown = Summary {
        geometries: summary.geometries + 1,
        units: summary.units + added_units(entries, shape),
        ..summary
    };
    verdict_of(given_lowest(given).min(limits_lowest(grown)))?;
    let needed = n as u64 + 2 + shape.record_bytes() as u64;
    room(24, hall.len(), needed)?;
    insert_entry(hall, n, place + 6 + size as usize, given.shader);
    put_u32_le(hall, place, size + 2);
    put_given(hall, n + 2, given);
    Ok(needed)
}

// The rank of the first of checks 11, 14 to 18 and 27 that the given geometry fails, or PASSED. No record is made of it before: its lengths need not fit one.
fn given_lowest(given: GivenGeometry) -> u8
    ensures { result ≡ given_lowest (given_geometry (given_in given.entry)) }
{
    let GivenGeometry {
        declaration,
        stride,
        count,
        content,
        indices,
        ..
    } = given;
    if content.len() as u64 != u64::from(count) * u64::from(stride) {
        return 11;
    }
    if declaration.stride != stride {
        return 14;
    }
    if !components_inside(declaration, stride) {
        return 15;
    }
    if count < 1 || MOST_VERTICES < count {
        return 16;
    }
    lent_indices_lowest(indices, count)
}

// What the image grows by, in units of 16 bytes, where the last model has `entries` geometries.
fn added_units(entries: usize, shape: GeometryShape) -> usize
    requires { entries < 2 ^ 32 }
    ensures { result + model_units entries ≡ model_units (entries + 1) + geometry_units shape.content shape.held }
{
    shape.units() + model_units(entries + 1) - model_units(entries)
}

// The bytes from `entry` to n move up, and the shader id is put before them.
fn insert_entry(hall: &mut [u8], n: usize, entry: usize, shader: u16)
    requires { (entry ≤ n) × (n + 2 ≤ length hall.old) }
    ensures { hall.new ≡ overwrite hall.old entry (bytes 2 shader ++ part hall.old entry (n - entry)) }
{
    copy_within(hall, entry, entry + 2, n - entry);
    put_u16_le(hall, entry, shader);
}

// The four records.
fn put_given(out: &mut [u8], at: usize, given: GivenGeometry)
    requires room { at + (65 + length given.content.now + 4 * length given.indices.now) ≤ length out.old }
    requires few { (length given.content.now < 2 ^ 31) × (length given.indices.now < 2 ^ 29) × (given.count ≤ 65535) }
    ensures { out.new ≡ overwrite out.old at (write_geometry (listed_geometry (given_geometry (given_in given.entry)))) }
{
    let numbers = GeometryNumbers {
        shader: given.shader,
        index_count: given.indices.len() as u32,
        triangle_count: (given.indices.len() / 3) as u32,
        vertex_count: given.count as u16,
        stride: given.stride,
    };
    let vertices = VertexBytes {
        layout: VertexBufferLayout::Legacy,
        stride: given.stride,
        count: given.count,
        content: given.content,
    };
    put_full(
        out,
        at,
        numbers,
        given.declaration,
        vertices,
        &given.indices,
    );
}
