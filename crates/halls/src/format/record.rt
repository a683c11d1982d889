// The records of the list, as bytes. `at` is where a record begins; each caller has counted the room.
ghost use Rattle.std.specs.Prelude.{◌≡◌, ◌++◌, ◌<◌, ◌≤◌, ◌+◌, ◌*◌, ◌/◌, ◌^◌, length};
ghost use Rattle.sections.specs.Edit.{overwrite};
ghost use Rattle.sections.specs.Le.{bytes};
ghost use Rattle.vertices.specs.Runs.{numbers, run};
ghost use Rattle.halls.specs.List.{record_bytes, model_numbers, geometry_record, declaration_record, vertices_record, indices_record};
ghost use Rattle.halls.specs.Inner.Kinds.{kind_number};
ghost use Rattle.halls.specs.Inner.View.{four_records, numbers_seen, vertices_in};

use crate::format::kind::RecordKind;
use crate::format::numbers::{GeometryNumbers, ModelNumbers};
use crate::format::record_indices::RecordIndices;
use sections::{copy_into, put_u8_le, put_u16_le, put_u32_le};
use vertices::{VertexBufferLayout, VertexDeclaration, write_declaration};

// Kind 1: 12 bytes and the mapping.
pub fn put_model(out: &mut [u8], at: usize, model: ModelNumbers, mapping: &[u8])
    requires { (at + (12 + length mapping.now) ≤ length out.old) × (length mapping.now < 2 ^ 31) × (length mapping.now / 2 * 2 ≡ length mapping.now) }
    ensures { out.new ≡ overwrite out.old at (record_bytes 1 (bytes 4 model.binding ++ (bytes 2 model.mask ++ run 2 (numbers 2 (length mapping.now / 2) mapping.now)))) }
{
    put_model_numbers(out, at, (6 + mapping.len()) as u32, model);
    copy_into(out, at + 12, mapping);
}

// Kind 1 up to the mapping: 12 bytes.
pub fn put_model_numbers(out: &mut [u8], at: usize, body: u32, model: ModelNumbers)
    requires { at + 12 ≤ length out.old }
    ensures { out.new ≡ overwrite out.old at (model_numbers body model.binding model.mask) }
{
    put_head(out, at, body, RecordKind::Model);
    put_u32_le(out, at + 6, model.binding);
    put_u16_le(out, at + 10, model.mask);
}

// Kind 2: 20 bytes.
pub fn put_geometry(out: &mut [u8], at: usize, numbers: GeometryNumbers)
    requires { at + 20 ≤ length out.old }
    ensures { out.new ≡ overwrite out.old at (geometry_record (numbers_seen numbers)) }
{
    put_head(out, at, 14, RecordKind::Geometry);
    put_u16_le(out, at + 6, numbers.shader);
    put_u32_le(out, at + 8, numbers.index_count);
    put_u32_le(out, at + 12, numbers.triangle_count);
    put_u16_le(out, at + 16, numbers.vertex_count);
    put_u16_le(out, at + 18, numbers.stride);
}

// Kind 3: 22 bytes.
pub fn put_declaration(out: &mut [u8], at: usize, declaration: VertexDeclaration)
    requires { at + 22 ≤ length out.old }
    ensures { out.new ≡ overwrite out.old at (declaration_record declaration) }
{
    put_head(out, at, 16, RecordKind::Declaration);
    write_declaration(out, at + 6, declaration);
}

// A geometry's vertices, to be written as they were found.
#[derive(Clone, Copy)]
pub struct VertexBytes<'a> {
    pub layout: VertexBufferLayout,
    pub stride: u16,
    pub count: u32,
    pub content: &'a [u8],
}

// Kind 4: 13 bytes and the vertices.
pub fn put_vertices(out: &mut [u8], at: usize, vertices: VertexBytes)
    requires { (at + (13 + length vertices.content.now) ≤ length out.old) × (length vertices.content.now < 2 ^ 31) }
    ensures { out.new ≡ overwrite out.old at (vertices_record (vertices_in vertices.entry)) }
{
    let content = vertices.content;
    put_head(out, at, (7 + content.len()) as u32, RecordKind::Vertices);
    put_u8_le(out, at + 6, vertices.layout.number());
    put_u16_le(out, at + 7, vertices.stride);
    put_u32_le(out, at + 9, vertices.count);
    copy_into(out, at + 13, content);
}

// Kind 5: 10 bytes and the indices, four bytes each.
pub fn put_indices<I: RecordIndices>(out: &mut [u8], at: usize, indices: &I)
    requires { (at + (10 + 4 * length (I.indices indices.now).items) ≤ length out.old) × (4 + 4 * length (I.indices indices.now).items < 2 ^ 32) }
    ensures { out.new ≡ overwrite out.old at (indices_record (I.indices indices.now)) }
{
    let counts = indices.counts();
    put_head(out, at, 4 + 4 * counts.held, RecordKind::Indices);
    put_u32_le(out, at + 6, counts.count);
    indices.put_items(out, at + 10);
}

// The four records of a geometry that has all of them.
pub fn put_full<I: RecordIndices>(
    out: &mut [u8],
    at: usize,
    numbers: GeometryNumbers,
    declaration: VertexDeclaration,
    vertices: VertexBytes,
    indices: &I,
)
    requires room { at + (65 + length vertices.content.now + 4 * length (I.indices indices.now).items) ≤ length out.old }
    requires few { (length vertices.content.now < 2 ^ 31) × (4 + 4 * length (I.indices indices.now).items < 2 ^ 32) }
    ensures { out.new ≡ overwrite out.old at (four_records numbers declaration (vertices_in vertices.entry) (I.indices indices.now)) }
{
    let behind = at + 55 + vertices.content.len();
    put_geometry(out, at, numbers);
    put_declaration(out, at + 20, declaration);
    put_vertices(out, at + 42, vertices);
    put_indices(out, behind, indices);
}

fn put_head(out: &mut [u8], at: usize, body: u32, kind: RecordKind)
    requires { at + 6 ≤ length out.old }
    ensures { out.new ≡ overwrite out.old at (bytes 4 body ++ bytes 2 (kind_number kind)) }
{
    put_u32_le(out, at, body);
    put_u16_le(out, at + 4, kind.number());
}
