// Rows about little-endian fields: of width a, in a buffer of b bytes, at most 64, at offset c.
use std::io::{self, Write};
use testing::{Row, bytes, done, first, numbers, unwritten};

// Four types with functions of their own: a trait over them would be longer than these four lines, and than those of `write`.
fn read(b: &[u8], width: u64, off: usize) -> u64 {
    match width {
        1 => sections::u8_le(b, off).into(),
        2 => sections::u16_le(b, off).into(),
        4 => sections::u32_le(b, off).into(),
        _ => sections::u64_le(b, off),
    }
}

pub fn read_row(out: &mut impl Write, row: Row) -> io::Result<()> {
    let buffer = unwritten::<64>();
    write!(out, "read")?;
    numbers(out, row, 3)?;
    let field = read(first(&buffer, row.b as usize), row.a, row.c as usize);
    writeln!(out, " {field:x}")
}

fn write(b: &mut [u8], width: u64, off: usize, v: u64) -> bool {
    match width {
        1 => sections::put_u8_le(b, off, (v % 256) as u8),
        2 => sections::put_u16_le(b, off, (v % 65536) as u16),
        4 => sections::put_u32_le(b, off, (v % 4294967296) as u32),
        _ => sections::put_u64_le(b, off, v),
    }
}

// The same in the first n bytes.
fn write_first(b: &mut [u8], n: usize, width: u64, off: usize, v: u64) -> bool {
    b.get_mut(..n)
        .is_some_and(|part| write(part, width, off, v))
}

// Writes the lowest bytes of d, and prints all 64 bytes of the buffer that the first b were lent of.
pub fn write_row(out: &mut impl Write, row: Row) -> io::Result<()> {
    let mut buffer = unwritten::<64>();
    write!(out, "write")?;
    numbers(out, row, 4)?;
    let answer = write_first(&mut buffer, row.b as usize, row.a, row.c as usize, row.d);
    write!(out, " {}", done(answer))?;
    bytes(out, &buffer)?;
    writeln!(out)
}
