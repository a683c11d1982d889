// Rows about encoding values.
use crate::attributes::attributes;
use crate::declarations::declared;
use crate::names;
use std::io::{self, Write};
use testing::{Row, bytes, done, first, numbers, unwritten, value_in};
use vertices::{VertexComponentType, Vertices};

// What was encoded at `at`, read back as the only component of vertex 1.
fn decoded(out: &mut impl Write, b: &[u8], nibble: u64, at: usize) -> io::Result<()> {
    let vertices = Vertices {
        data: b,
        stride: (at % 65536) as u16,
        count: 2,
        declaration: declared(1, nibble),
    };
    let answer = vertices::read_vertex_attributes(vertices, 1);
    attributes(out, answer)
}

// has_shape and encode_value, of the type a and a value of shape b, at offset c, in a buffer of d bytes, at most 512.
// Prints its first 64 bytes, and what was encoded, decoded.
pub fn encode_row(out: &mut impl Write, row: Row) -> io::Result<()> {
    let mut buffer = unwritten::<512>();
    let t = VertexComponentType::from_nibble((row.a % 256) as u8);
    let v = value_in(row.data, row.b);
    let at = row.c as usize;
    write!(out, "encode")?;
    numbers(out, row, 4)?;
    names::component_type(out, t)?;
    let fits = if vertices::has_shape(t, v) {
        "yes"
    } else {
        "no"
    };
    let answer = buffer
        .get_mut(..row.d as usize)
        .is_some_and(|part| vertices::encode_value(part, at, t, v));
    write!(out, " {fits} {}", done(answer))?;
    bytes(out, first(&buffer, 64))?;
    if answer {
        decoded(out, &buffer, row.a, at)?;
    }
    writeln!(out)
}
