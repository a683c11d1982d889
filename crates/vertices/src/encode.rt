// Encoding: a value as the bytes of a component type.
ghost use Rattle.std.specs.Prelude.{◌≡◌, ◌&&◌, true, map, ◌+◌, ◌*◌, ◌≤◌, length};
ghost use Rattle.sections.specs.Edit.{overwrite, fits, Edited};
ghost use Rattle.sections.specs.Le.{bytes};
ghost use Rattle.vertices.specs.Types.{size_of};
ghost use Rattle.vertices.specs.Runs.{run};
ghost use Rattle.vertices.specs.Encode.{has_shape, width_of, stored_as, encoded_bytes};

use crate::attribute::VertexAttributeValue;
use crate::halves::f32_to_f16;
use crate::normalised::f32_to_snorm8;
use crate::types::VertexComponentType;

// Whether a value has the shape that a type stores: as many floats, or four bytes.
pub fn has_shape(component_type: VertexComponentType, value: VertexAttributeValue) -> bool
    ensures { result ≡ has_shape component_type value }
{
    matches!(
        (component_type, value),
        (VertexComponentType::Float, VertexAttributeValue::One(_))
            | (
                VertexComponentType::Half2 | VertexComponentType::Float2,
                VertexAttributeValue::Two(_)
            )
            | (VertexComponentType::Float3, VertexAttributeValue::Three(_))
            | (
                VertexComponentType::Half4
                    | VertexComponentType::Float4
                    | VertexComponentType::Rgba8Snorm,
                VertexAttributeValue::Four(_)
            )
            | (
                VertexComponentType::UByte4 | VertexComponentType::Colour,
                VertexAttributeValue::Bytes(_)
            )
    )
}

// Writes all the bytes of the value. False, with nothing changed, where it has another shape or does not fit. A bool, not a Result: `set_attribute` of
// halls, which calls it, has tested the shape and knows that there is room, and drops the answer.
pub fn encode_value(
    buf: &mut [u8],
    off: usize,
    component_type: VertexComponentType,
    value: VertexAttributeValue,
) -> bool
    ensures { Edited (has_shape component_type value && fits buf.old off (size_of component_type)) buf.old off (encoded_bytes component_type value) result buf.new }
{
    let size = usize::from(component_type.size_in_bytes());
    if !has_shape(component_type, value) || !sections::ends_inside(off, size, buf.len()) {
        return false;
    }
    put_value(buf, off, component_type, value);
    true
}

// The bytes of each value, 0 of a type that has none.
fn width_of(component_type: VertexComponentType) -> usize
    ensures { result ≡ width_of component_type }
{
    let width = component_type
        .size_in_bytes()
        .checked_div(component_type.component_count());
    usize::from(width.unwrap_or(0))
}

// A value of the type's shape, whose bytes are known to fit.
#[tactic(auto, unfolding(crate::specs::Encode::encoded_bytes))]
fn put_value(
    buf: &mut [u8],
    off: usize,
    component_type: VertexComponentType,
    value: VertexAttributeValue,
)
    requires { (has_shape component_type value ≡ true) × (off + size_of component_type ≤ length buf.old) }
    ensures { buf.new ≡ overwrite buf.old off (encoded_bytes component_type value) }
{
    match value {
        VertexAttributeValue::One(f) => put_numbers(buf, off, component_type, &[f.bits]),
        VertexAttributeValue::Two(v) => {
            put_numbers(buf, off, component_type, &[v.x.bits, v.y.bits]);
        }
        VertexAttributeValue::Three(v) => {
            put_numbers(buf, off, component_type, &[v.x.bits, v.y.bits, v.z.bits]);
        }
        VertexAttributeValue::Four(v) => {
            put_numbers(
                buf,
                off,
                component_type,
                &[v.x.bits, v.y.bits, v.z.bits, v.w.bits],
            );
        }
        VertexAttributeValue::Bytes(b) => {
            put_numbers(
                buf,
                off,
                component_type,
                &[b.a, b.b, b.c, b.d].map(u32::from),
            );
        }
        VertexAttributeValue::Unsupported => {}
    }
}

// Numbers one behind the other.
fn put_numbers(buf: &mut [u8], off: usize, component_type: VertexComponentType, numbers: &[u32])
    requires { off + length numbers.now * width_of component_type ≤ length buf.old }
    ensures { buf.new ≡ overwrite buf.old off (run (width_of component_type) (map (stored_as component_type) numbers.now)) }
{
    let width = width_of(component_type);
    for (i, &number) in numbers.iter().enumerate() {
        put_number(buf, off + i * width, component_type, number);
    }
}

// The low byte of a number that is stored as a byte.
fn put_number(buf: &mut [u8], off: usize, component_type: VertexComponentType, number: u32)
    requires { off + width_of component_type ≤ length buf.old }
    ensures { buf.new ≡ overwrite buf.old off (bytes (width_of component_type) (stored_as component_type number)) }
{
    match component_type {
        VertexComponentType::Half2 | VertexComponentType::Half4 => {
            sections::put_u16_le(buf, off, f32_to_f16(number))
        }
        VertexComponentType::Rgba8Snorm => { sections::put_u8_le(buf, off, f32_to_snorm8(number)) }
        VertexComponentType::UByte4 | VertexComponentType::Colour => {
            sections::put_u8_le(buf, off, (number % 256) as u8)
        }
        VertexComponentType::Float
        | VertexComponentType::Float2
        | VertexComponentType::Float3
        | VertexComponentType::Float4 => sections::put_u32_le(buf, off, number),
        VertexComponentType::Nothing
        | VertexComponentType::FloatUnknown
        | VertexComponentType::Unknown(_) => false,
    };
}
