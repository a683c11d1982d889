// Rows about component types, semantics and declarations.
use crate::names;
use std::io::{self, Write};
use testing::{Row, bytes, done, first, numbers};
use vertices::{VertexComponent, VertexComponentType, VertexDeclaration, VertexSemantic, Vertices};

// from_nibble of a, and what belongs to the type.
pub fn type_row(out: &mut impl Write, row: Row) -> io::Result<()> {
    let t = VertexComponentType::from_nibble((row.a % 256) as u8);
    write!(out, "type")?;
    numbers(out, row, 1)?;
    names::component_type(out, t)?;
    writeln!(
        out,
        " {:x} {:x} {:x}",
        t.nibble(),
        t.size_in_bytes(),
        t.component_count()
    )
}

// from_index of a.
pub fn semantic_row(out: &mut impl Write, row: Row) -> io::Result<()> {
    write!(out, "semantic")?;
    numbers(out, row, 1)?;
    names::semantic(out, VertexSemantic::from_index((row.a % 256) as u8))?;
    writeln!(out)
}

// A declaration of these flags and types. The stored stride and count disagree with them, and are not to be looked at.
pub fn declared(flags: u64, types: u64) -> VertexDeclaration {
    VertexDeclaration {
        flags: (flags % 4294967296) as u32,
        stride: 7,
        unknown_6h: 255,
        count: 3,
        types,
    }
}

// Of data, with stride a and b vertices, by a declaration of flags c and types d.
pub fn vertices_of(row: Row<'_>) -> Vertices<'_> {
    Vertices {
        data: row.data,
        stride: (row.a % 65536) as u16,
        count: (row.b % 4294967296) as u32,
        declaration: declared(row.c, row.d),
    }
}

// declaration_id, of flags a and types b.
pub fn id_row(out: &mut impl Write, row: Row) -> io::Result<()> {
    write!(out, "id")?;
    numbers(out, row, 2)?;
    writeln!(out, " {:x}", declared(row.a, row.b).declaration_id())
}

pub fn component(out: &mut impl Write, c: VertexComponent) -> io::Result<()> {
    names::semantic(out, c.semantic)?;
    write!(out, " {:x}", c.semantic_index)?;
    names::component_type(out, c.component_type)?;
    write!(out, " {:x} {:x} {:x}", c.offset, c.size, c.component_count)
}

// components, of flags a and types b.
pub fn components_row(out: &mut impl Write, row: Row) -> io::Result<()> {
    let components = declared(row.a, row.b).components();
    write!(out, "components")?;
    numbers(out, row, 2)?;
    write!(out, " {:x}", components.len())?;
    for c in components {
        write!(out, ",")?;
        component(out, c)?;
    }
    writeln!(out)
}

// component, of flags a and types b, at index c.
pub fn component_row(out: &mut impl Write, row: Row) -> io::Result<()> {
    write!(out, "component")?;
    numbers(out, row, 3)?;
    match declared(row.a, row.b).component(row.c) {
        Some(c) => component(out, c)?,
        None => write!(out, " missing")?,
    }
    writeln!(out)
}

pub fn declaration(out: &mut impl Write, d: VertexDeclaration) -> io::Result<()> {
    write!(
        out,
        " {:x} {:x} {:x} {:x} {:x}",
        d.flags, d.stride, d.unknown_6h, d.count, d.types
    )
}

// read_declaration, at offset a.
pub fn read_row(out: &mut impl Write, row: Row) -> io::Result<()> {
    write!(out, "read")?;
    numbers(out, row, 1)?;
    declaration(out, vertices::read_declaration(row.data, row.a as usize))?;
    writeln!(out)
}

// write_declaration, at offset a, in the first b bytes of a buffer of 64. The row holds the buffer, then the declaration.
pub fn write_row(out: &mut impl Write, row: Row) -> io::Result<()> {
    let mut buffer = [0u8; 64];
    write!(out, "write")?;
    numbers(out, row, 2)?;
    sections::copy_into(&mut buffer, 0, first(row.data, 64));
    let d = vertices::read_declaration(row.data, 64);
    let answer = buffer.get_mut(..row.b as usize).is_some_and(|part| vertices::write_declaration(
        part,
        row.a as usize,
        d,
    ));
    write!(out, " {}", done(answer))?;
    bytes(out, &buffer)?;
    writeln!(out)
}

// position_only, with stride a.
pub fn position_only_row(out: &mut impl Write, row: Row) -> io::Result<()> {
    write!(out, "position_only")?;
    numbers(out, row, 1)?;
    declaration(
        out,
        VertexDeclaration::position_only((row.a % 65536) as u16),
    )?;
    writeln!(out)
}
