// Attribute values: one component of one vertex, read from the data and seen as a vector or a colour.
#![tactic(auto, using(sections::proofs::LeLaws::field_in))]

ghost use Rattle.std.specs.Prelude.{◌≡◌, true, ◌+◌, ◌≤◌, ◌<◌, length};
ghost use Rattle.sections.specs.Le.{field};
ghost use Rattle.vertices.specs.Types.{size_of};
ghost use Rattle.vertices.specs.Normalised.{unorm8_to_f32};
ghost use Rattle.vertices.specs.Attribute.{component_inside, attribute_at, float_at, half_at, snorm_at, bytes_at, value_at};
ghost use Rattle.vertices.specs.Attribute.{as_vec2, as_vec3, as_vec4, colour_of, as_rgba8};

use crate::halves::f16_to_f32;
use crate::known::Stored;
use crate::normalised::{f32_to_unorm8, snorm_colour8, snorm8_to_f32, unorm8_to_f32};
use crate::types::{VertexComponent, VertexComponentType};
use crate::values::{Bytes4, F32, Vec2, Vec3, Vec4};

// One to four floats, or four bytes; unsupported, a case as in the original, where the type has no size.
#[derive(Clone, Copy, Debug, PartialEq, Eq)]
pub enum VertexAttributeValue {
    One(F32),
    Two(Vec2),
    Three(Vec3),
    Four(Vec4),
    Bytes(Bytes4),
    Unsupported,
}

#[derive(Clone, Copy, Debug, PartialEq, Eq)]
pub struct VertexAttribute {
    pub component: VertexComponent,
    pub value: VertexAttributeValue,
}

// Seen as a vector, what is missing is 0, a missing w is 1.0, and a byte is divided by 255. An unsupported value is zero in every place.
impl VertexAttributeValue {
    pub fn as_vec4(self) -> Vec4
        ensures { result ≡ as_vec4 self }
    {
        match self {
            VertexAttributeValue::One(f) => Vec4::new(f, F32::ZERO, F32::ZERO, F32::ONE),
            VertexAttributeValue::Two(v) => Vec4::new(v.x, v.y, F32::ZERO, F32::ONE),
            VertexAttributeValue::Three(v) => Vec4::new(v.x, v.y, v.z, F32::ONE),
            VertexAttributeValue::Four(v) => v,
            VertexAttributeValue::Bytes(b) => {
                Vec4::new(unorm(b.a), unorm(b.b), unorm(b.c), unorm(b.d))
            }
            VertexAttributeValue::Unsupported => Vec4::new(
                F32::ZERO,
                F32::ZERO,
                F32::ZERO,
                F32::ZERO,
            ),
        }
    }

    #[tactic(auto, using(crate::proofs::AttributeLaws::two_of_four))]
    pub fn as_vec2(self) -> Vec2
        ensures { result ≡ as_vec2 self }
    {
        let v = self.as_vec4();
        Vec2::new(v.x, v.y)
    }

    #[tactic(auto, using(crate::proofs::AttributeLaws::three_of_four))]
    pub fn as_vec3(self) -> Vec3
        ensures { result ≡ as_vec3 self }
    {
        self.as_vec4().xyz()
    }
}

// Names of the original Rust.
impl VertexAttribute {
    pub fn as_vec2(self) -> Vec2
        ensures { result ≡ as_vec2 self.value }
    {
        self.value.as_vec2()
    }

    pub fn as_vec3(self) -> Vec3
        ensures { result ≡ as_vec3 self.value }
    {
        self.value.as_vec3()
    }

    pub fn as_vec4(self) -> Vec4
        ensures { result ≡ as_vec4 self.value }
    {
        self.value.as_vec4()
    }

    pub fn as_rgba8(self) -> Bytes4
        ensures { result ≡ as_rgba8 self.component.component_type self.value }
    {
        as_rgba8(self.component.component_type, self.value)
    }
}

// Four floats or bytes as a colour; any other value is white.
pub fn as_rgba8(component_type: VertexComponentType, value: VertexAttributeValue) -> Bytes4
    ensures { result ≡ as_rgba8 component_type value }
{
    match value {
        VertexAttributeValue::Four(v) => Bytes4 {
            a: colour_of(component_type, v.x),
            b: colour_of(component_type, v.y),
            c: colour_of(component_type, v.z),
            d: colour_of(component_type, v.w),
        },
        VertexAttributeValue::Bytes(b) => b,
        VertexAttributeValue::One(_)
        | VertexAttributeValue::Two(_)
        | VertexAttributeValue::Three(_)
        | VertexAttributeValue::Unsupported => Bytes4::WHITE,
    }
}

fn colour_of(component_type: VertexComponentType, f: F32) -> u8
    ensures { result ≡ colour_of component_type f }
{
    match component_type {
        VertexComponentType::Rgba8Snorm => snorm_colour8(f.bits),
        _ => f32_to_unorm8(f.bits),
    }
}

fn unorm(byte: u8) -> F32
    ensures { result ≡ record { bits = unorm8_to_f32 byte } }
{
    F32 {
        bits: unorm8_to_f32(byte),
    }
}

pub(crate) fn attribute_at(data: &[u8], base: usize, component: VertexComponent) -> VertexAttribute
    requires { (base < 281474976710656) × (component_inside (length «data».now) base component ≡ true) }
    ensures { result ≡ attribute_at «data».now base component }
{
    let component_type = component.component_type;
    if component_type.size_in_bytes() == 0 {
        return VertexAttribute {
            component,
            value: VertexAttributeValue::Unsupported,
        };
    }
    let value = value_at(data, base + usize::from(component.offset), component_type);
    VertexAttribute { component, value }
}

// The value of a type at a place that is known to lie inside the data.
pub fn value_at(
    data: &[u8],
    off: usize,
    component_type: VertexComponentType,
) -> VertexAttributeValue
    requires { off + size_of component_type ≤ length «data».now }
    ensures { result ≡ value_at component_type «data».now off }
{
    match component_type {
        VertexComponentType::Half2 => {
            VertexAttributeValue::Two(Vec2::of(|i| half_at(data, off + 2 * i)))
        }
        VertexComponentType::Float => VertexAttributeValue::One(float_at(data, off)),
        VertexComponentType::Half4 => {
            VertexAttributeValue::Four(Vec4::of(|i| half_at(data, off + 2 * i)))
        }
        VertexComponentType::Float2 => {
            VertexAttributeValue::Two(Vec2::of(|i| float_at(data, off + 4 * i)))
        }
        VertexComponentType::Float3 => {
            VertexAttributeValue::Three(Vec3::of(|i| float_at(data, off + 4 * i)))
        }
        VertexComponentType::Float4 => {
            VertexAttributeValue::Four(Vec4::of(|i| float_at(data, off + 4 * i)))
        }
        VertexComponentType::UByte4 | VertexComponentType::Colour => {
            VertexAttributeValue::Bytes(bytes4_at(data, off))
        }
        VertexComponentType::Rgba8Snorm => {
            VertexAttributeValue::Four(Vec4::of(|i| snorm_at(data, off + i)))
        }
        VertexComponentType::Nothing
        | VertexComponentType::FloatUnknown
        | VertexComponentType::Unknown(_) => VertexAttributeValue::Unsupported,
    }
}

// Four functions: with the conversion as an argument of one over `Stored`, write_strip takes eight lines for each kind of lane and is over forty.
pub fn float_at(data: &[u8], off: usize) -> F32
    requires { off + 4 ≤ length «data».now }
    ensures { result ≡ float_at «data».now off }
{
    F32 {
        bits: u32::get(data, off),
    }
}

pub fn half_at(data: &[u8], off: usize) -> F32
    requires { off + 2 ≤ length «data».now }
    ensures { result ≡ half_at «data».now off }
{
    F32 {
        bits: f16_to_f32(u16::get(data, off)),
    }
}

pub fn snorm_at(data: &[u8], off: usize) -> F32
    requires { off + 1 ≤ length «data».now }
    ensures { result ≡ snorm_at «data».now off }
{
    F32 {
        bits: snorm8_to_f32(u8::get(data, off)),
    }
}

pub fn unorm_at(data: &[u8], off: usize) -> F32
    requires { off + 1 ≤ length «data».now }
    ensures { result ≡ record { bits = unorm8_to_f32 (field 1 «data».now off) } }
{
    unorm(u8::get(data, off))
}

// The value of a type at such a place, as a colour.
pub fn rgba8_at(data: &[u8], off: usize, component_type: VertexComponentType) -> Bytes4
    requires { off + size_of component_type ≤ length «data».now }
    ensures { result ≡ as_rgba8 component_type (value_at component_type «data».now off) }
{
    as_rgba8(component_type, value_at(data, off, component_type))
}

pub fn bytes4_at(data: &[u8], off: usize) -> Bytes4
    requires { off + 4 ≤ length «data».now }
    ensures { result ≡ bytes_at «data».now off }
{
    Bytes4 {
        a: u8::get(data, off),
        b: u8::get(data, off + 1),
        c: u8::get(data, off + 2),
        d: u8::get(data, off + 3),
    }
}
