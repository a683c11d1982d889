// An attribute's value of plain numbers. The test programs' `value_in` is the same by shape, of a row's bytes: one function for both would be of the crate
// `vertices`, the one below the two, and a public one that nothing else needs.
ghost use Rattle.std.specs.Prelude.{◌≡◌};
ghost use Rattle.exports.specs.Passed.{passed_bytes, passed_value};

use vertices::{Bytes4, F32, Vec2, Vec3, Vec4, VertexAttributeValue};

// Shape 1 to 4: so many floats. 5: four bytes.
pub fn passed_value(shape: u8, x: u32, y: u32, z: u32, w: u32) -> VertexAttributeValue
    ensures { result ≡ passed_value shape x y z w }
{
    let bytes = passed_bytes(x, y, z, w);
    let x = F32 { bits: x };
    let y = F32 { bits: y };
    let z = F32 { bits: z };
    let w = F32 { bits: w };
    match shape {
        1 => VertexAttributeValue::One(x),
        2 => VertexAttributeValue::Two(Vec2 { x, y }),
        3 => VertexAttributeValue::Three(Vec3 { x, y, z }),
        4 => VertexAttributeValue::Four(Vec4 { x, y, z, w }),
        5 => bytes,
        _ => VertexAttributeValue::Unsupported,
    }
}

// A number above 255 is no byte.
fn passed_bytes(a: u32, b: u32, c: u32, d: u32) -> VertexAttributeValue
    ensures { result ≡ passed_bytes a b c d }
{
    match (
        u8::try_from(a),
        u8::try_from(b),
        u8::try_from(c),
        u8::try_from(d),
    ) {
        (Ok(a), Ok(b), Ok(c), Ok(d)) => VertexAttributeValue::Bytes(Bytes4 { a, b, c, d }),
        _ => VertexAttributeValue::Unsupported,
    }
}
