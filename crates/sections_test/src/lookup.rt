// Rows about addresses in two sections.
use crate::buffers::Sections;
use sections::Located;
use std::io::{self, Write};
use testing::{Row, checksum, numbers, place};

// locate, at address c, of d bytes.
pub fn locate_row(out: &mut impl Write, row: Row) -> io::Result<()> {
    let lent = Sections::of(row);
    write!(out, "locate")?;
    numbers(out, row, 4)?;
    match lent.reader().locate(row.c, row.d as usize) {
        Some(p) => place(out, p)?,
        None => write!(out, " nothing")?,
    }
    writeln!(out)
}

// How long a slice is, its first byte, and the checksum of all; where there is none, those of an empty one.
fn slice(out: &mut impl Write, found: Option<&[u8]>) -> io::Result<()> {
    let b = found.unwrap_or(&[]);
    writeln!(
        out,
        " {:x} {:x} {:x}",
        b.len(),
        sections::u8_le(b, 0),
        checksum(b)
    )
}

// resolve, at address c, of d bytes.
pub fn resolve_row(out: &mut impl Write, row: Row) -> io::Result<()> {
    let lent = Sections::of(row);
    write!(out, "resolve")?;
    numbers(out, row, 4)?;
    slice(out, lent.reader().resolve(row.c, row.d as usize))
}

fn place_of(which: u64, at: usize) -> Option<Located> {
    match which {
        0 => Some(Located::System(at)),
        1 => Some(Located::Graphics(at)),
        _ => None,
    }
}

// bytes_of, at offset d of the system section (c = 0), of the graphics section (1) or of none, of e bytes.
pub fn bytes_of_row(out: &mut impl Write, row: Row) -> io::Result<()> {
    let lent = Sections::of(row);
    let wanted = place_of(row.c, row.d as usize);
    write!(out, "bytes_of")?;
    numbers(out, row, 5)?;
    slice(out, lent.reader().bytes_of(wanted, row.e as usize))
}

// within_limit. Only its yes is tried here: a section of more than 67,108,864 bytes does not fit on a program's stack.
pub fn within_limit_row(out: &mut impl Write, row: Row) -> io::Result<()> {
    let lent = Sections::of(row);
    write!(out, "within_limit")?;
    numbers(out, row, 2)?;
    let within = lent.reader().within_limit();
    writeln!(out, " {}", if within { "yes" } else { "no" })
}
