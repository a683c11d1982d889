// A geometry as numbers and places: what both passes of the hall list call need of it.
ghost use Rattle.std.specs.Prelude.{◌≡◌, ◌<◌, ◌^◌};
ghost use Rattle.sections.specs.Address.{resolved, sections_of};
ghost use Rattle.halls.specs.Blocks.{index_block, geometry_block};
ghost use Rattle.halls.specs.Inner.View.{width_of, view_at, sized_view, block_view, index_view_in, index_bytes, bytes_seen};
ghost use Rattle.halls.specs.Inner.View.{geometry_view, view_length, declaration_length, buffer_length, indices_length, held_count};
ghost use Rattle.halls.specs.Reading.{vertex_count_of, content_at};

use crate::format::numbers::GeometryNumbers;
use sections::{Located, ResReader, u16_le, u32_le, u64_le};
use vertices::{VertexBuffer, VertexDeclaration, parse_vertex_buffer_at};

// How many bytes an index has.
#[derive(Clone, Copy, Debug, PartialEq, Eq)]
pub enum IndexWidth {
    Two = 2,
    Four = 4,
}

// Where indices lie, and how wide they are.
#[derive(Clone, Copy)]
pub struct IndexItems {
    pub width: IndexWidth,
    pub place: Located,
}

// A block may have a count and no indices.
#[derive(Clone, Copy)]
pub struct IndexView {
    pub count: u32,
    pub items: Option<IndexItems>,
}

#[derive(Clone, Copy)]
pub struct GeometryView {
    pub numbers: GeometryNumbers,
    pub buffer: Option<VertexBuffer>,
    pub indices: Option<IndexView>,
}

impl IndexWidth {
    // Of a stored size, 2 or 4. An Option, as for a record's kind: of another number there is no more to say.
    pub fn of(size: u16) -> Option<IndexWidth>
        ensures { result ≡ width_of size }
    {
        match size {
            2 => Some(IndexWidth::Two),
            4 => Some(IndexWidth::Four),
            _ => None,
        }
    }

    pub fn bytes(self) -> usize
        ensures { result ≡ index_bytes self }
    {
        self as usize
    }
}

// The view of a geometry's 0x98 bytes.
pub fn geometry_view(reader: &ResReader, raw: &[u8], shader: u16) -> GeometryView
    ensures { result ≡ geometry_view (sections_of reader.now) shader (geometry_block raw.now) }
{
    let stored = u16_le(raw, 0x60);
    let stride = u16_le(raw, 0x70);
    let buffer = parse_vertex_buffer_at(
        reader,
        u64_le(raw, 0x18),
        u64_le(raw, 0x78),
        u32::from(stored),
        stride,
    );
    GeometryView {
        numbers: GeometryNumbers {
            shader,
            index_count: u32_le(raw, 0x58),
            triangle_count: u32_le(raw, 0x5C),
            vertex_count: vertex_count(stored, buffer),
            stride,
        },
        buffer,
        indices: index_view(reader, u64_le(raw, 0x38)),
    }
}

// A stored count of 0 becomes the buffer's, at most 65,535.
fn vertex_count(stored: u16, buffer: Option<VertexBuffer>) -> u16
    ensures { result ≡ vertex_count_of stored buffer }
{
    if stored != 0 {
        return stored;
    }
    buffer.map_or(0, |b| u16::try_from(b.vertex_count).unwrap_or(u16::MAX))
}

fn index_view(reader: &ResReader, va: u64) -> Option<IndexView>
    ensures { result ≡ index_view_in (sections_of reader.now) (resolved (sections_of reader.now) va 0x60) }
{
    let raw = reader.resolve(va, 0x60)?;
    Some(block_view(reader, raw))
}

// The index block's two forms, else its count with no indices.
fn block_view(reader: &ResReader, raw: &[u8]) -> IndexView
    ensures { result ≡ block_view (sections_of reader.now) (index_block raw.now) }
{
    let count = u32_le(raw, 0x08);
    let legacy = view_at(reader, IndexWidth::Two, count, u64_le(raw, 0x10));
    let sized = sized_view(reader, u16_le(raw, 0x0C), count, u64_le(raw, 0x18));
    IndexView {
        count,
        items: legacy.or(sized),
    }
}

fn sized_view(reader: &ResReader, size: u16, count: u32, pointer: u64) -> Option<IndexItems>
    ensures { result ≡ sized_view (sections_of reader.now) size count pointer }
{
    let width = IndexWidth::of(size)?;
    view_at(reader, width, count, pointer)
}

fn view_at(reader: &ResReader, width: IndexWidth, count: u32, pointer: u64) -> Option<IndexItems>
    ensures { result ≡ view_at (sections_of reader.now) width count pointer }
{
    if pointer == 0 || count == 0 {
        return None;
    }
    let place = reader.locate(pointer, count as usize * width.bytes())?;
    Some(IndexItems { width, place })
}

// The bytes of a view's indices, none where it has none.
pub fn indices_at<'a>(reader: &ResReader<'a>, view: IndexView) -> &'a [u8]
    ensures { result.now ≡ bytes_seen (sections_of reader.now) view }
{
    // Not by `and_then`: of a closure that captures a reader the check infers no result, and the proof did not close.
    let Some(items) = view.items else {
        return &[];
    };
    let size = view.count as usize * items.width.bytes();
    reader.bytes_of(Some(items.place), size).unwrap_or(&[])
}

// The bytes of a buffer's vertices.
pub fn vertices_at<'a>(reader: &ResReader<'a>, buffer: VertexBuffer) -> &'a [u8]
    ensures { result.now ≡ content_at (sections_of reader.now) buffer }
{
    reader
        .bytes_of(Some(buffer.data), buffer.size())
        .unwrap_or(&[])
}

// The bytes of a geometry's records.
pub fn view_length(view: GeometryView) -> u64
    ensures { (result ≡ view_length view) × (result < 2 ^ 49) }
{
    20 + (buffer_length(view.buffer) + indices_length(view.indices))
}

fn buffer_length(buffer: Option<VertexBuffer>) -> u64
    ensures { (result ≡ buffer_length buffer) × (result < 2 ^ 48) }
{
    buffer.map_or(0, |b| {
        declaration_length(b.declaration) + (13 + b.size() as u64)
    })
}

fn declaration_length(declaration: Option<VertexDeclaration>) -> u64
    ensures { (result ≡ declaration_length declaration) × (result < 23) }
{
    declaration.map_or(0, |_| 22)
}

fn indices_length(indices: Option<IndexView>) -> u64
    ensures { (result ≡ indices_length indices) × (result < 2 ^ 35) }
{
    indices.map_or(0, |view| 10 + 4 * u64::from(held(view)))
}

// How many indices the list will have.
pub fn held(view: IndexView) -> u32
    ensures { result ≡ held_count view }
{
    view.items.map_or(0, |_| view.count)
}
