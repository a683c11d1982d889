// The geometries of a model, as parts of the image.
ghost use Rattle.std.specs.Prelude.{◌≡◌, ◌+◌, ◌-◌, ◌≤◌, ◌^◌, length};
ghost use Rattle.sections.specs.Edit.{overwrite};
ghost use Rattle.halls.specs.Fronts.{front_geometry};
ghost use Rattle.halls.specs.ImageSize.{geometry_size};
ghost use Rattle.images.specs.Fronts.{geometry_length, measured_by, geometry_numbers, vertex_numbers, index_numbers, head_parts};
ghost use Rattle.images.specs.Fronts.{image_limit, Room, WrittenGeometry};
ghost use Rattle.images.specs.Image.{filled, geometry_block_bytes, geometry_image, index_block_bytes, vertex_block_bytes};

use crate::blocks::{GeometryBlock, IndexBlock, VertexBlock};
use crate::indices::put_indices;
use crate::items::Item;
use crate::parts::{Measured, address_of, padded, put_copy};
use halls::{GeometryShape, shape_of};
use sections::{copy_into, u16_le, u32_le};

pub struct Geometry;

impl Item for Geometry {
    ghost len = { geometry_length };

    ghost size = { λ s. geometry_size (front_geometry s) };

    ghost image = { λ at s. geometry_image at (front_geometry s) };

    ghost few = { λ k s. Unit {0} };

    fn put(out: &mut [u8], at: usize, front: &[u8]) -> Measured {
        put_geometry(out, at, front)
    }
}

// The geometry at the front.
fn put_geometry(out: &mut [u8], at: usize, front: &[u8]) -> Measured
    requires { (geometry_length front.now ≤ length front.now) × (Room at (geometry_size (front_geometry front.now)) out.old) }
    ensures { WrittenGeometry front.now at out.old result out.new }
{
    let shape = shape_of(front);
    let behind = 55 + shape.content;
    let indices = 65 + shape.content;
    let index_block = at + 0x130 + padded(shape.content);
    put_head(out, at, front, index_block);
    put_copy(out, at + 0x130, &front[55..behind]);
    put_index_numbers(out, index_block, front, shape.content);
    put_indices(out, index_block + 0x60, &front[indices..], shape.held);
    measure_geometry(shape)
}

// How long one with so many vertex bytes and indices is. Its length is not `record_bytes` of the shape: that has a `requires`, so halls does not publish it.
fn measure_geometry(shape: GeometryShape) -> Measured
    requires { (shape.content ≤ 2 ^ 48) × (shape.held ≤ 2 ^ 30) }
    ensures { result ≡ measured_by shape.content shape.held }
{
    Measured {
        length: 65 + shape.content + 4 * shape.held,
        size: 16 * shape.units(),
    }
}

// Its block, vertex block and declaration.
fn put_head(out: &mut [u8], at: usize, front: &[u8], index_block: usize)
    requires { (Room at 0x130 out.old) × (index_block ≤ image_limit) × (42 ≤ length front.now) }
    ensures { out.new ≡ overwrite out.old at (head_parts at index_block front.now) }
{
    put_geometry_numbers(out, at, front, index_block);
    put_vertex_numbers(out, at, front);
    copy_into(out, at + 0x120, &front[26..42]);
}

// Its block, with zeros behind it.
fn put_geometry_numbers(out: &mut [u8], at: usize, front: &[u8], index_block: usize)
    requires { (Room at 0xA0 out.old) × (index_block ≤ image_limit) }
    ensures { out.new ≡ overwrite out.old at (filled (geometry_block_bytes (geometry_numbers at index_block front.now))) }
{
    let block = GeometryBlock {
        vertex_block: address_of(at + 0xA0),
        index_block: address_of(index_block),
        indices: u32_le(front, 8),
        triangles: u32_le(front, 12),
        vertices: u16_le(front, 16),
        stride: u16_le(front, 18),
    };
    block.put(out, at);
}

// The vertex block of the geometry at `at`.
fn put_vertex_numbers(out: &mut [u8], at: usize, front: &[u8])
    requires { Room at 0x130 out.old }
    ensures { out.new ≡ overwrite out.old (at + 0xA0) (vertex_block_bytes (vertex_numbers at front.now)) }
{
    let block = VertexBlock {
        stride: u16_le(front, 49),
        content: address_of(at + 0x130),
        count: u32_le(front, 51),
        info: address_of(at + 0x120),
    };
    block.put(out, at + 0xA0);
}

// The index block; the indices lie behind it.
fn put_index_numbers(out: &mut [u8], at: usize, front: &[u8], content: usize)
    requires { (Room at 0x60 out.old) × (61 + content ≤ length front.now) }
    ensures { out.new ≡ overwrite out.old at (index_block_bytes (index_numbers at content front.now)) }
{
    let block = IndexBlock {
        count: u32_le(front, 61 + content),
        items: address_of(at + 0x60),
    };
    block.put(out, at);
}
