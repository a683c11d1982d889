// Rows about locating the vertices of a geometry.
use crate::declarations::declaration;
use std::io::{self, Write};
use testing::{Row, numbers, place};
use vertices::VertexBuffer;

fn vertex_buffer(out: &mut impl Write, b: VertexBuffer) -> io::Result<()> {
    write!(out, " {:?} {:x}", b.layout, b.layout.number())?;
    write!(
        out,
        " {:x} {:x} {:x} {:x}",
        b.vertex_stride, b.vertex_count, b.data_pointer, b.info_pointer
    )?;
    place(out, b.data)?;
    match b.declaration {
        Some(d) => declaration(out, d),
        None => write!(out, " absent"),
    }
}

fn locate(out: &mut impl Write, row: Row) -> io::Result<()> {
    let reader = row.sections(row.a as usize);
    match vertices::parse_vertex_buffer_at(
        &reader,
        row.b,
        row.c,
        (row.d % 4294967296) as u32,
        (row.e % 65536) as u16,
    ) {
        Some(b) => vertex_buffer(out, b),
        None => write!(out, " not found"),
    }
}

// parse_vertex_buffer_at, at address b, with the geometry's own pointer c, count d and stride e. The first a bytes are the
// system section, the others the graphics section.
pub fn buffer_row(out: &mut impl Write, row: Row) -> io::Result<()> {
    write!(out, "buffer")?;
    numbers(out, row, 5)?;
    locate(out, row)?;
    writeln!(out)
}
