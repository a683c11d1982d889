// Attribute values of a row's bytes. The library's `passed_value` is the same by shape, of numbers that C passes; src/values.rt of exports says why twice.
use sections::{u8_le, u32_le};
use std::array;
use vertices::{Bytes4, F32, Vec2, Vec3, Vec4, VertexAttributeValue};

// One to four floats, four bytes (5) or an unsupported value (0), as the shape says.
pub fn value_in(raw: &[u8], shape: u64) -> VertexAttributeValue {
    let [x, y, z, w]: [F32; 4] = array::from_fn(|i| F32 {
        bits: u32_le(raw, 4 * i),
    });
    let [a, b, c, d]: [u8; 4] = array::from_fn(|i| u8_le(raw, i));
    match shape {
        1 => VertexAttributeValue::One(x),
        2 => VertexAttributeValue::Two(Vec2 { x, y }),
        3 => VertexAttributeValue::Three(Vec3 { x, y, z }),
        4 => VertexAttributeValue::Four(Vec4 { x, y, z, w }),
        5 => VertexAttributeValue::Bytes(Bytes4 { a, b, c, d }),
        _ => VertexAttributeValue::Unsupported,
    }
}
