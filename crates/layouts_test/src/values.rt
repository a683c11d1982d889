// Rows about attribute values, seen as vectors and colours.
use crate::names;
use std::io::{self, Write};
use testing::{Row, numbers, value_in};
use vertices::{Bytes4, Vec2, Vec3, Vec4, VertexAttributeValue, VertexComponentType};

fn vec2(out: &mut impl Write, v: Vec2) -> io::Result<()> {
    write!(out, " {:x} {:x}", v.x.bits, v.y.bits)
}

fn vec3(out: &mut impl Write, v: Vec3) -> io::Result<()> {
    write!(out, " {:x} {:x} {:x}", v.x.bits, v.y.bits, v.z.bits)
}

fn vec4(out: &mut impl Write, v: Vec4) -> io::Result<()> {
    write!(
        out,
        " {:x} {:x} {:x} {:x}",
        v.x.bits, v.y.bits, v.z.bits, v.w.bits
    )
}

fn bytes4(out: &mut impl Write, b: Bytes4) -> io::Result<()> {
    write!(out, " {:x} {:x} {:x} {:x}", b.a, b.b, b.c, b.d)
}

pub fn value(out: &mut impl Write, v: VertexAttributeValue) -> io::Result<()> {
    match v {
        VertexAttributeValue::One(f) => write!(out, " one {:x}", f.bits),
        VertexAttributeValue::Two(v) => {
            write!(out, " two")?;
            vec2(out, v)
        }
        VertexAttributeValue::Three(v) => {
            write!(out, " three")?;
            vec3(out, v)
        }
        VertexAttributeValue::Four(v) => {
            write!(out, " four")?;
            vec4(out, v)
        }
        VertexAttributeValue::Bytes(b) => {
            write!(out, " bytes")?;
            bytes4(out, b)
        }
        VertexAttributeValue::Unsupported => write!(out, " unsupported"),
    }
}

// A value as vectors of two, three and four, the last also without its w, and as a colour.
pub fn views(
    out: &mut impl Write,
    two: Vec2,
    three: Vec3,
    four: Vec4,
    colour: Bytes4,
) -> io::Result<()> {
    write!(out, " vec2")?;
    vec2(out, two)?;
    write!(out, " vec3")?;
    vec3(out, three)?;
    write!(out, " vec4")?;
    vec4(out, four)?;
    write!(out, " xyz")?;
    vec3(out, four.xyz())?;
    write!(out, " rgba8")?;
    bytes4(out, colour)
}

// as_vec2, as_vec3, as_vec4 and as_rgba8, of the type a and a value of shape b.
pub fn seen_row(out: &mut impl Write, row: Row) -> io::Result<()> {
    let t = VertexComponentType::from_nibble((row.a % 256) as u8);
    let v = value_in(row.data, row.b);
    write!(out, "seen")?;
    numbers(out, row, 2)?;
    names::component_type(out, t)?;
    value(out, v)?;
    views(
        out,
        v.as_vec2(),
        v.as_vec3(),
        v.as_vec4(),
        vertices::as_rgba8(t, v),
    )?;
    writeln!(out)
}
