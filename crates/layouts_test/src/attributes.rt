// Rows about the attributes of one vertex.
use crate::declarations::{component, vertices_of};
use crate::values::{value, views};
use std::io::{self, Write};
use testing::{Row, numbers};
use vertices::{AttributeError, Attributes, VertexAttribute};

fn attribute(out: &mut impl Write, a: VertexAttribute) -> io::Result<()> {
    write!(out, ",")?;
    component(out, a.component)?;
    value(out, a.value)?;
    views(out, a.as_vec2(), a.as_vec3(), a.as_vec4(), a.as_rgba8())
}

// The refusal's number, how many attributes there are, and each.
pub fn attributes(
    out: &mut impl Write,
    answer: Result<Attributes, AttributeError>,
) -> io::Result<()> {
    match answer {
        Ok(list) => {
            write!(out, " 0 {:x}", list.len())?;
            for a in list {
                attribute(out, a)?;
            }
            Ok(())
        }
        Err(error) => { write!(out, " {:x} 0", error.check()) }
    }
}

// read_vertex_attributes, of data with stride a and b vertices, by a declaration of flags c and types d, at vertex e.
pub fn attributes_row(out: &mut impl Write, row: Row) -> io::Result<()> {
    write!(out, "attributes")?;
    numbers(out, row, 5)?;
    let answer = vertices::read_vertex_attributes(vertices_of(row), row.e);
    attributes(out, answer)?;
    writeln!(out)
}
