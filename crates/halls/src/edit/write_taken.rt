// What was read, written as a hall's list. Each of these answers the place behind what it wrote.
// Its loops are no `fold` and stay apart, and its match is none of Option's methods, for the reasons given at the hall list's second pass.
ghost use Rattle.std.specs.Prelude.{◌≤◌, ◌+◌, length};
ghost use Rattle.halls.specs.Hall.{listed_geometry};
ghost use Rattle.halls.specs.List.{each, write_geometry};
ghost use Rattle.halls.specs.Inner.Small.{Wrote};
ghost use Rattle.halls.specs.Inner.Taking.{geometry_bytes, model_bytes, shader_bytes};

use crate::format::front::GeometryShape;
use crate::format::record::{VertexBytes, put_full, put_model_numbers};
use crate::read::parts::WholeGeometry;
use crate::read::stored::{Geometries, HeldGeometry, Models, StoredModel};
use sections::put_u16_le;
use vertices::VertexBufferLayout;

pub fn write_taken_models(out: &mut [u8], at: usize, models: Models) -> usize
    requires { at + length (each model_bytes models) ≤ length out.old }
    ensures { Wrote out.old at (each model_bytes models.entry) result out.new }
{
    let mut next = at;
    for model in models {
        next = write_taken_model(out, next, &model);
    }
    next
}

// The mapping comes first, since its length says how long the record is.
fn write_taken_model(out: &mut [u8], at: usize, model: &StoredModel) -> usize
    requires { at + length (model_bytes model.now) ≤ length out.old }
    ensures { Wrote out.old at (model_bytes model.now) result out.new }
{
    let next = write_shaders(out, at + 12, model.geometries());
    let body = (next - at - 6) as u32;
    put_model_numbers(out, at, body, model.numbers());
    write_taken_geometries(out, next, model.geometries())
}

// The place is counted: how many geometries there are is known at the end alone.
fn write_shaders(out: &mut [u8], at: usize, geometries: Geometries) -> usize
    requires { at + length (each shader_bytes geometries) ≤ length out.old }
    ensures { Wrote out.old at (each shader_bytes geometries.entry) result out.new }
{
    let mut next = at;
    for geometry in geometries {
        put_u16_le(out, next, geometry.shader());
        next += 2;
    }
    next
}

fn write_taken_geometries(out: &mut [u8], at: usize, geometries: Geometries) -> usize
    requires { at + length (each geometry_bytes geometries) ≤ length out.old }
    ensures { Wrote out.old at (each geometry_bytes geometries.entry) result out.new }
{
    let mut next = at;
    for geometry in geometries {
        next = write_taken_geometry(out, next, &geometry.view());
    }
    next
}

// Nothing where vertices or indices are lacking.
fn write_taken_geometry(out: &mut [u8], at: usize, geometry: &HeldGeometry) -> usize
    requires { at + length (geometry_bytes geometry.now) ≤ length out.old }
    ensures { Wrote out.old at (geometry_bytes geometry.now) result out.new }
{
    match geometry.whole() {
        Some(whole) => write_whole(out, at, &whole),
        None => at,
    }
}

// The four records of a geometry, with layout 0.
fn write_whole(out: &mut [u8], at: usize, geometry: &WholeGeometry) -> usize
    requires { at + length (write_geometry (listed_geometry geometry.now)) ≤ length out.old }
    ensures { Wrote out.old at (write_geometry (listed_geometry geometry.now)) result out.new }
{
    let buffer = geometry.buffer;
    let vertices = VertexBytes {
        layout: VertexBufferLayout::Legacy,
        stride: buffer.vertex_stride,
        count: buffer.vertex_count,
        content: geometry.content,
    };
    let shape = GeometryShape {
        content: geometry.content.len(),
        held: geometry.indices.held() as usize,
    };
    put_full(
        out,
        at,
        geometry.numbers,
        buffer.or_position_only(),
        vertices,
        &geometry.indices,
    );
    at + shape.record_bytes()
}
