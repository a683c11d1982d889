// The second pass of the hall list call: it writes what the first has counted. Its loops are no `fold`: after one nothing is known of the buffer that its
// closure borrowed and changed, and the proof did not close. They stay apart: one function over an iterator and a step would have to say which bytes the step
// writes of an item, and that before each item there is room, by a trait with a type for each step: that is longer than the loops.
//
// A match that writes is no `map_or`: tried where a taken geometry is written, its closure captures `out`, and neither the room nor the result was proved.
ghost use Rattle.std.specs.Prelude.{◌≡◌, ◌≤◌, ◌+◌, length};
ghost use Rattle.sections.specs.Edit.{overwrite};
ghost use Rattle.sections.specs.Address.{sections_of};
ghost use Rattle.halls.specs.List.{optional, indices_record, write_geometry, write_geometries, write_model, write};
ghost use Rattle.halls.specs.Inner.Small.{Wrote};
ghost use Rattle.halls.specs.Inner.View.{BufferHeld, stored_record, buffer_records};
ghost use Rattle.halls.specs.Inner.View.{declaration_length, buffer_length};

use crate::format::record::{
    VertexBytes, put_declaration, put_geometry, put_indices, put_model, put_vertices,
};
use crate::read::limited::Limited;
use crate::read::parts::StoredIndices;
use crate::read::stored::{Geometries, HeldGeometry, Models, StoredModel};
use crate::read::view::vertices_at;
use vertices::{VertexBuffer, VertexDeclaration};

// Each of these answers the place behind what it wrote.

pub fn write_models(out: &mut [u8], at: usize, models: Models) -> usize
    requires { at + length (write models) ≤ length out.old }
    ensures { Wrote out.old at (write models.entry) result out.new }
{
    let mut next = at;
    for model in models {
        next = write_model(out, next, &model);
    }
    next
}

// Its record, and its geometries behind it.
fn write_model(out: &mut [u8], at: usize, model: &StoredModel) -> usize
    requires { at + length (write_model model.now) ≤ length out.old }
    ensures { Wrote out.old at (write_model model.now) result out.new }
{
    let mapping = model.mapping();
    put_model(out, at, model.numbers(), mapping);
    write_geometries(out, at + (12 + mapping.len()), model.geometries())
}

fn write_geometries(out: &mut [u8], at: usize, geometries: Geometries) -> usize
    requires { at + length (write_geometries geometries) ≤ length out.old }
    ensures { Wrote out.old at (write_geometries geometries.entry) result out.new }
{
    let mut next = at;
    for geometry in geometries {
        next = write_geometry(out, next, &geometry.view());
    }
    next
}

fn write_geometry(out: &mut [u8], at: usize, geometry: &HeldGeometry) -> usize
    requires { at + length (write_geometry geometry.now) ≤ length out.old }
    ensures { Wrote out.old at (write_geometry geometry.now) result out.new }
{
    let view = geometry.view;
    put_geometry(out, at, view.numbers);
    let next = write_buffer(out, at + 20, &geometry.limited, view.buffer);
    write_indices(out, next, geometry.indices())
}

fn write_buffer(out: &mut [u8], at: usize, limited: &Limited, buffer: Option<VertexBuffer>) -> usize
    requires { (BufferHeld (sections_of limited.now.reader.now) buffer) × (at + buffer_length buffer ≤ length out.old) }
    ensures { (result ≡ at + buffer_length buffer) × (out.new ≡ overwrite out.old at (buffer_records (sections_of limited.now.reader.now) buffer)) }
{
    match buffer {
        Some(b) => {
            let next = write_stored(out, at, b.declaration);
            let content = vertices_at(limited.reader, b);
            let vertices = VertexBytes {
                layout: b.layout,
                stride: b.vertex_stride,
                count: b.vertex_count,
                content,
            };
            put_vertices(out, next, vertices);
            next + (13 + content.len())
        }
        None => at,
    }
}

fn write_stored(out: &mut [u8], at: usize, declaration: Option<VertexDeclaration>) -> usize
    requires { at + declaration_length declaration ≤ length out.old }
    ensures { (result ≡ at + declaration_length declaration) × (out.new ≡ overwrite out.old at (stored_record declaration)) }
{
    match declaration {
        Some(d) => {
            put_declaration(out, at, d);
            at + 22
        }
        None => at,
    }
}

fn write_indices(out: &mut [u8], at: usize, indices: Option<StoredIndices>) -> usize
    requires { at + length (optional indices_record indices) ≤ length out.old }
    ensures { Wrote out.old at (optional indices_record indices.entry) result out.new }
{
    match indices {
        Some(indices) => {
            let held = indices.held() as usize;
            put_indices(out, at, &indices);
            at + (10 + 4 * held)
        }
        None => at,
    }
}
