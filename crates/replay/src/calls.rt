// Calls that change a hall, with arguments from a row's numbers and its bytes.
use crate::lines::lent;
use halls::{AttributeChange, GeometryId, GivenGeometry, Refusal};
use sections::{u32_le, u64_le};
use std::{array, fmt};
use testing::{Row, first, rest, value_in};

#[derive(Clone, Copy)]
pub enum Call {
    // With binding c and mask d.
    AddModel,
    // Of model c.
    RemoveModel,
    // Of geometry d of model c.
    RemoveGeometry,
    // In vertex e of geometry d of model c; semantic, shape and value are further arguments.
    SetAttribute,
    // Of geometry d of model c; the indices are further arguments.
    ReplaceIndices,
    // With shader c, stride d and count e; the others are further arguments, 56 bytes and the vertex bytes.
    AddGeometry,
}

// A row's kind that is no call.
#[derive(Clone, Copy)]
pub struct NoCall;

impl TryFrom<u64> for Call {
    type Error = NoCall;

    fn try_from(kind: u64) -> Result<Self, NoCall> {
        match kind {
            5 => Ok(Call::AddModel),
            6 => Ok(Call::RemoveModel),
            7 => Ok(Call::RemoveGeometry),
            8 => Ok(Call::SetAttribute),
            11 => Ok(Call::ReplaceIndices),
            12 => Ok(Call::AddGeometry),
            _ => Err(NoCall),
        }
    }
}

impl fmt::Display for Call {
    fn fmt<W: fmt::Write>(&self, f: &mut fmt::Formatter<W>) -> fmt::Result {
        f.write_str(match self {
            Call::AddModel => "add model",
            Call::RemoveModel => "remove model",
            Call::RemoveGeometry => "remove geometry",
            Call::SetAttribute => "set attribute",
            Call::ReplaceIndices => "replace indices",
            Call::AddGeometry => "add geometry",
        })
    }
}

fn add_model(hall: &mut [u8], n: usize, row: Row) -> Result<u64, Refusal> {
    let binding = (row.c % 4294967296) as u32;
    let mask = (row.d % 65536) as u16;
    halls::add_model(hall, n, binding, mask)
}

// Geometry d of model c.
pub fn geometry_id(row: Row) -> GeometryId {
    GeometryId {
        model: row.c,
        index: row.d,
    }
}

// The value stands behind its semantic and its shape.
fn set_attribute(hall: &mut [u8], n: usize, row: Row) -> Result<u64, Refusal> {
    let change = AttributeChange {
        geometry: geometry_id(row),
        vertex: row.e,
        semantic: u64_le(row.data, 0),
        value: value_in(rest(row.data, 16), u64_le(row.data, 8)),
    };
    halls::set_attribute(hall, n, change)
}

fn six_in(raw: &[u8]) -> [u32; 6] {
    array::from_fn(|i| u32_le(raw, 4 * i))
}

// The first of six indices, as many as the first number says.
fn replace_indices(hall: &mut [u8], n: usize, row: Row) -> Result<u64, Refusal> {
    let six = six_in(rest(row.data, 8));
    let indices = first(&six, u64_le(row.data, 0) as usize);
    halls::replace_indices(hall, n, geometry_id(row), indices)
}

// The vertex bytes stand behind the 56 bytes of the other arguments.
fn add_geometry(hall: &mut [u8], n: usize, row: Row) -> Result<u64, Refusal> {
    let six = six_in(rest(row.data, 32));
    let given = GivenGeometry {
        shader: (row.c % 65536) as u16,
        declaration: vertices::read_declaration(row.data, 0),
        stride: (row.d % 65536) as u16,
        count: (row.e % 4294967296) as u32,
        content: rest(row.data, 56),
        indices: first(&six, u64_le(row.data, 24) as usize),
    };
    halls::add_geometry(hall, n, given)
}

// On the hall of the first n bytes, where the first `room` are lent.
pub fn run_call(call: Call, b: &mut [u8], n: usize, room: usize, row: Row) -> Result<u64, Refusal> {
    let hall = lent(b, room)?;
    match call {
        Call::AddModel => add_model(hall, n, row),
        Call::RemoveModel => halls::remove_model(hall, n, row.c),
        Call::RemoveGeometry => halls::remove_geometry(hall, n, geometry_id(row)),
        Call::SetAttribute => set_attribute(hall, n, row),
        Call::ReplaceIndices => replace_indices(hall, n, row),
        Call::AddGeometry => add_geometry(hall, n, row),
    }
}
