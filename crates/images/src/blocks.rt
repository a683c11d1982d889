// The blocks of an image: zeros, with the named fields put over them.
ghost use Rattle.std.specs.Prelude.{◌≡◌, ◌+◌, ◌≤◌, length};
ghost use Rattle.sections.specs.Edit.{overwrite};
ghost use Rattle.images.specs.Image.{header_bytes};
ghost use Rattle.images.specs.PutBlocks.{model_bytes, geometry_bytes, vertex_bytes, index_bytes};

use sections::{put_u16_le, put_u32_le, put_u64_le, zero};

// 16 bytes, at the start of the image.
pub fn put_header(out: &mut [u8], pointer: u64, count: u16)
    requires { 16 ≤ length out.old }
    ensures { out.new ≡ overwrite out.old 0 (header_bytes (record { pointer = pointer; count = count; capacity = count })) }
{
    zero(out, 0, 16);
    put_u64_le(out, 0, pointer);
    put_u16_le(out, 8, count);
    put_u16_le(out, 10, count);
}

// A model's, 0x30 bytes.
#[derive(Clone, Copy)]
pub struct ModelBlock {
    pub geometries: u64,
    pub count: u16,
    pub mapping: u64,
    pub binding: u32,
    pub mask: u16,
}

impl ModelBlock {
    pub fn put(self, out: &mut [u8], at: usize)
        requires { at + 0x30 ≤ length out.old }
        ensures { out.new ≡ overwrite out.old at (model_bytes self) }
    {
        zero(out, at, 0x30);
        put_u64_le(out, at + 0x08, self.geometries);
        put_u16_le(out, at + 0x10, self.count);
        put_u64_le(out, at + 0x20, self.mapping);
        put_u32_le(out, at + 0x28, self.binding);
        put_u16_le(out, at + 0x2C, self.mask);
    }
}

// A geometry's, 0xA0 bytes: the block, and zeros up to a multiple of 16.
#[derive(Clone, Copy)]
pub struct GeometryBlock {
    pub vertex_block: u64,
    pub index_block: u64,
    pub indices: u32,
    pub triangles: u32,
    pub vertices: u16,
    pub stride: u16,
}

impl GeometryBlock {
    pub fn put(self, out: &mut [u8], at: usize)
        requires { at + 0xA0 ≤ length out.old }
        ensures { out.new ≡ overwrite out.old at (geometry_bytes self) }
    {
        zero(out, at, 0xA0);
        put_u64_le(out, at + 0x18, self.vertex_block);
        put_u64_le(out, at + 0x38, self.index_block);
        put_u32_le(out, at + 0x58, self.indices);
        put_u32_le(out, at + 0x5C, self.triangles);
        put_u16_le(out, at + 0x60, self.vertices);
        put_u16_le(out, at + 0x70, self.stride);
    }
}

// Legacy, 0x80 bytes.
#[derive(Clone, Copy)]
pub struct VertexBlock {
    pub stride: u16,
    pub content: u64,
    pub count: u32,
    pub info: u64,
}

impl VertexBlock {
    pub fn put(self, out: &mut [u8], at: usize)
        requires { at + 0x80 ≤ length out.old }
        ensures { out.new ≡ overwrite out.old at (vertex_bytes self) }
    {
        zero(out, at, 0x80);
        put_u16_le(out, at + 0x08, self.stride);
        put_u64_le(out, at + 0x10, self.content);
        put_u32_le(out, at + 0x18, self.count);
        put_u64_le(out, at + 0x30, self.info);
    }
}

// Of two-byte indices, 0x60 bytes.
#[derive(Clone, Copy)]
pub struct IndexBlock {
    pub count: u32,
    pub items: u64,
}

impl IndexBlock {
    pub fn put(self, out: &mut [u8], at: usize)
        requires { at + 0x60 ≤ length out.old }
        ensures { out.new ≡ overwrite out.old at (index_bytes self) }
    {
        zero(out, at, 0x60);
        put_u32_le(out, at + 0x08, self.count);
        put_u64_le(out, at + 0x10, self.items);
    }
}
