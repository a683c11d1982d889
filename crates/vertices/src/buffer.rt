// Locating the vertices of a geometry: the layouts of a vertex buffer block, tried in order, then the geometry's own pointer.
ghost use Rattle.std.specs.Prelude.{◌≡◌, ◌*◌, ◌<◌};
ghost use Rattle.sections.specs.Address.{sections_of};
ghost use Rattle.vertices.specs.Buffer.{layout_number, vertex_data, stored_declaration, or_position_only, legacy_at, block_buffer, vertex_buffer_at};

use crate::declaration::{VertexDeclaration, read_declaration};
use sections::{Located, ResReader, u16_le, u32_le, u64_le};

// Which layout the vertices were found by.
#[derive(Clone, Copy, Debug, PartialEq, Eq)]
pub enum VertexBufferLayout {
    Legacy = 0,
    LegacyData2 = 1,
    Gen9 = 2,
    GeometryInline = 3,
}

// Where vertices are stored one behind another, and how many of how many bytes each.
#[derive(Clone, Copy)]
struct Stream {
    pointer: u64,
    count: u32,
    stride: u16,
}

// `data` is where the count × stride bytes lie.
#[derive(Clone, Copy)]
pub struct VertexBuffer {
    pub vertex_stride: u16,
    pub vertex_count: u32,
    pub data_pointer: u64,
    pub info_pointer: u64,
    pub declaration: Option<VertexDeclaration>,
    pub data: Located,
    pub layout: VertexBufferLayout,
}

impl VertexBufferLayout {
    pub fn number(self) -> u8
        ensures { result ≡ layout_number self }
    {
        self as u8
    }
}

impl VertexBuffer {
    // The declaration that the vertices are read by: the stored one, or `position_only` of the buffer's stride.
    pub fn or_position_only(self) -> VertexDeclaration
        ensures { result ≡ or_position_only self.declaration self.vertex_stride }
    {
        or_position_only(self.declaration, self.vertex_stride)
    }

    // The bytes of all vertices.
    pub fn size(self) -> usize
        ensures { (result ≡ self.vertex_count * self.vertex_stride) × (result < 281474976710656) }
    {
        self.vertex_count as usize * usize::from(self.vertex_stride)
    }
}

// A stored declaration, or `position_only` of a stride where none is stored.
pub fn or_position_only(
    declaration: Option<VertexDeclaration>,
    vertex_stride: u16,
) -> VertexDeclaration
    ensures { result ≡ or_position_only declaration vertex_stride }
{
    declaration.unwrap_or_else(|| VertexDeclaration::position_only(vertex_stride))
}

// The first layout whose data resolves: those of the block behind va in order, else the geometry's own stream.
#[tactic(auto, using(crate::proofs::BufferLaws::plain_legacy), unfolding(crate::specs::Buffer::vertex_buffer_at))]
pub fn parse_vertex_buffer_at(
    reader: &ResReader,
    va: u64,
    inline_data_pointer: u64,
    inline_vertex_count: u32,
    inline_vertex_stride: u16,
) -> Option<VertexBuffer>
    ensures { result ≡ vertex_buffer_at (sections_of reader.now) va inline_data_pointer inline_vertex_count inline_vertex_stride }
{
    let inline = Stream {
        pointer: inline_data_pointer,
        count: inline_vertex_count,
        stride: inline_vertex_stride,
    };
    // Not by `or_else`: of a closure handed to it that captures a reader the check infers no result; with a clause in it all is longer, and was not proved.
    if let Some(raw) = reader.resolve(va, 0x80)
        && let Some(buffer) = block_buffer(reader, raw)
    {
        return Some(buffer);
    }
    buffer_at(reader, VertexBufferLayout::GeometryInline, inline, 0)
}

// The block's three layouts. A later one is looked up where those before it are not found.
#[tactic(auto, using(crate::proofs::BufferLaws::plain_legacy), unfolding(crate::specs::Buffer::block_buffer))]
fn block_buffer(reader: &ResReader, raw: &[u8]) -> Option<VertexBuffer>
    ensures { result ≡ block_buffer (sections_of reader.now) raw.now }
{
    let count = u32_le(raw, 0x18);
    let stride = u16_le(raw, 0x08);
    let info = u64_le(raw, 0x30);
    let legacy = |layout: VertexBufferLayout, pointer: u64| {
        let stream = Stream {
            pointer,
            count,
            stride,
        };
        buffer_at(reader, layout, stream, info)
    };
    // Not by `or_else`, as above; `legacy` is called here itself, and its result is known.
    if let Some(buffer) = legacy(VertexBufferLayout::Legacy, u64_le(raw, 0x10)) {
        return Some(buffer);
    }
    if let Some(buffer) = legacy(VertexBufferLayout::LegacyData2, u64_le(raw, 0x20)) {
        return Some(buffer);
    }
    let gen9 = Stream {
        pointer: u64_le(raw, 0x18),
        count: u32_le(raw, 0x08),
        stride: u16_le(raw, 0x0C),
    };
    buffer_at(reader, VertexBufferLayout::Gen9, gen9, 0)
}

// A layout, with the declaration behind its info pointer. One without an info pointer has 0 there, behind which nothing lies.
#[tactic(auto, unfolding(crate::specs::Buffer::legacy_at))]
fn buffer_at(
    reader: &ResReader,
    layout: VertexBufferLayout,
    stream: Stream,
    info: u64,
) -> Option<VertexBuffer>
    ensures { result ≡ legacy_at (sections_of reader.now) layout stream.pointer stream.count stream.stride info }
{
    let data = vertex_data(reader, stream)?;
    Some(VertexBuffer {
        vertex_stride: stream.stride,
        vertex_count: stream.count,
        data_pointer: stream.pointer,
        info_pointer: info,
        declaration: stored_declaration(reader, info),
        data,
        layout,
    })
}

#[tactic(auto, unfolding(crate::specs::Buffer::vertex_data))]
fn vertex_data(reader: &ResReader, stream: Stream) -> Option<Located>
    ensures { result ≡ vertex_data (sections_of reader.now) stream.pointer stream.count stream.stride }
{
    if stream.pointer == 0 || stream.count == 0 || stream.stride == 0 {
        return None;
    }
    reader.locate(
        stream.pointer,
        stream.count as usize * usize::from(stream.stride),
    )
}

#[tactic(auto, unfolding(crate::specs::Buffer::stored_declaration))]
fn stored_declaration(reader: &ResReader, info: u64) -> Option<VertexDeclaration>
    ensures { result ≡ stored_declaration (sections_of reader.now) info }
{
    reader.resolve(info, 16).map(|raw| read_declaration(raw, 0))
}
