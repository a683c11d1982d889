// Rows about lists behind a pointer.
use crate::buffers::Sections;
use sections::{PointerListHeader, Unresolved};
use std::io::{self, Write};
use testing::{Row, numbers, place};

// locate_list, at address c, of d elements of e bytes.
pub fn locate_list_row(out: &mut impl Write, row: Row) -> io::Result<()> {
    let lent = Sections::of(row);
    let count = (row.d % 4294967296) as u32;
    let width = (row.e % 256) as u8;
    write!(out, "locate_list")?;
    numbers(out, row, 5)?;
    match lent.reader().locate_list(row.c, count, width) {
        Ok(None) => write!(out, " empty")?,
        Ok(Some(p)) => place(out, p)?,
        Err(Unresolved) => write!(out, " unresolved")?,
    }
    writeln!(out)
}

// read_pointer_list_header, at address c; both sections have two zeros at offset d.
pub fn header_row(out: &mut impl Write, row: Row) -> io::Result<()> {
    let lent = Sections::of(row).with_gap(row.d as usize);
    write!(out, "header")?;
    numbers(out, row, 4)?;
    match lent.reader().read_pointer_list_header(row.c) {
        Some(h) => header(out, h)?,
        None => write!(out, " unresolved")?,
    }
    writeln!(out)
}

fn header(out: &mut impl Write, h: PointerListHeader) -> io::Result<()> {
    write!(
        out,
        " {:x} {:x} {:x} {:x}",
        h.pointer,
        h.count,
        h.capacity,
        h.len()
    )
}
