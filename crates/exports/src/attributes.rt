// The attributes of one vertex, written as records of 20 bytes. The C interface passes every number as an argument of its own, so that the function has eight.
ghost use Rattle.std.specs.Prelude.{◌≡◌, ◌+◌, ◌*◌, ◌≤◌, ◌<◌, length};
ghost use Rattle.sections.specs.Edit.{overwrite};
ghost use Rattle.vertices.specs.Unified.{vec4_bytes};
ghost use Rattle.halls.specs.List.{each};
ghost use Rattle.exports.specs.Attributes.{padded_bytes, attribute_bytes, attributes_outcome, vertex_outcome};
ghost use Rattle.exports.specs.Passed.{declared};
ghost use Rattle.exports.specs.Told.{Answered, Told};

use crate::declared::declaration;
use crate::told::{Refused, told};
use halls::{Refusal, room};
use sections::{put_u8_le, put_u16_le, put_u32_le};
use vertices::{
    Attributes, Bytes4, F32, Vec4, VertexAttribute, VertexAttributeValue, VertexDeclaration,
    Vertices, read_vertex_attributes,
};

// Bytes of a record.
const RECORD: usize = 20;

#[unsafe(no_mangle)]
pub extern "C" fn calicofern_vertex_attributes(
    data: &[u8],
    stride: u16,
    count: u32,
    flags: u32,
    types: u64,
    index: u64,
    out: &mut [u8],
    size: &mut u64,
) -> u8
    ensures { Told (attributes_outcome «data».now stride count (declared flags types) index (length out.old)) out.old result out.new size.new }
{
    let vertices = Vertices {
        data,
        stride,
        count,
        declaration: declaration(flags, types),
    };
    told(write_attributes(vertices, index, out), size)
}

fn write_attributes(vertices: Vertices, index: u64, out: &mut [u8]) -> Result<u64, Refusal>
    ensures { Answered (vertex_outcome vertices.entry index (length out.old)) out.old result out.new }
{
    let attributes = read_vertex_attributes(vertices, index).map_err(|e| e.refusal())?;
    let needed = attributes.len() * RECORD;
    room(10, out.len(), needed as u64)?;
    put_attributes(out, attributes);
    Ok(needed as u64)
}

fn put_attributes(out: &mut [u8], attributes: Attributes)
    requires { length attributes * 20 ≤ length out.old }
    ensures { out.new ≡ overwrite out.old 0 (each attribute_bytes attributes.entry) }
{
    for (i, attribute) in attributes.enumerate() {
        put_attribute(out, i * RECORD, attribute);
    }
}

fn put_attribute(out: &mut [u8], at: usize, attribute: VertexAttribute)
    requires { at + 20 ≤ length out.old }
    ensures { out.new ≡ overwrite out.old at (attribute_bytes attribute) }
{
    let component = attribute.component;
    put_u8_le(out, at, component.semantic_index);
    put_u8_le(out, at + 1, component.component_type.nibble());
    put_u16_le(out, at + 2, component.offset);
    put_words(out, at + 4, words(attribute.value));
}

fn put_words(out: &mut [u8], at: usize, words: Vec4)
    requires { at + 16 ≤ length out.old }
    ensures { out.new ≡ overwrite out.old at (vec4_bytes words) }
{
    put_u32_le(out, at, words.x.bits);
    put_u32_le(out, at + 4, words.y.bits);
    put_u32_le(out, at + 8, words.z.bits);
    put_u32_le(out, at + 12, words.w.bits);
}

// The value's 16 bytes as four little-endian numbers.
#[tactic(auto, using(crate::proofs::AttributeRecords::bytes_word), unfolding(crate::specs::Attributes::padded_bytes, vertices::specs::Runs::run, sections::specs::Le::bytes))]
fn words(value: VertexAttributeValue) -> Vec4
    ensures { vec4_bytes result ≡ padded_bytes value }
{
    match value {
        VertexAttributeValue::One(f) => Vec4::new(f, F32::ZERO, F32::ZERO, F32::ZERO),
        VertexAttributeValue::Two(v) => Vec4::new(v.x, v.y, F32::ZERO, F32::ZERO),
        VertexAttributeValue::Three(v) => Vec4::new(v.x, v.y, v.z, F32::ZERO),
        VertexAttributeValue::Four(v) => v,
        VertexAttributeValue::Bytes(b) => Vec4::new(word(b), F32::ZERO, F32::ZERO, F32::ZERO),
        VertexAttributeValue::Unsupported => Vec4::new(F32::ZERO, F32::ZERO, F32::ZERO, F32::ZERO),
    }
}

// Four bytes as one number.
fn word(b: Bytes4) -> F32
    ensures { (result.bits ≡ b.a + 256 * b.b + 65536 * b.c + 16777216 * b.d) × (b.a < 256) × (b.b < 256) × (b.c < 256) × (b.d < 256) }
{
    F32 {
        bits: u32::from_le_bytes([b.a, b.b, b.c, b.d]),
    }
}
