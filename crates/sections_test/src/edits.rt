// Rows about edits of a buffer of 16,640 bytes, of which the checksum afterwards is printed.
use std::io::{self, Write};
use testing::{Row, checksum, done, first, numbers, pattern, unwritten};

// Room for moves of more than three blocks of 4,096.
const LONG: usize = 16_640;

fn finish(out: &mut impl Write, buffer: &[u8], answer: bool) -> io::Result<()> {
    writeln!(out, " {} {:x}", done(answer), checksum(buffer))
}

// copy_within, from a to b, of c bytes.
pub fn copy_within_row(out: &mut impl Write, row: Row) -> io::Result<()> {
    let mut buffer = unwritten::<LONG>();
    write!(out, "copy_within")?;
    numbers(out, row, 3)?;
    let answer = sections::copy_within(&mut buffer, row.a as usize, row.b as usize, row.c as usize);
    finish(out, &buffer, answer)
}

// copy_into, at a, of b bytes, at most 16,640.
pub fn copy_into_row(out: &mut impl Write, row: Row) -> io::Result<()> {
    let mut buffer = unwritten::<LONG>();
    let src = pattern::<LONG>(65);
    write!(out, "copy_into")?;
    numbers(out, row, 2)?;
    let answer = sections::copy_into(&mut buffer, row.a as usize, first(&src, row.b as usize));
    finish(out, &buffer, answer)
}

// zero, at a, of b bytes.
pub fn zero_row(out: &mut impl Write, row: Row) -> io::Result<()> {
    let mut buffer = unwritten::<LONG>();
    write!(out, "zero")?;
    numbers(out, row, 2)?;
    let answer = sections::zero(&mut buffer, row.a as usize, row.b as usize);
    finish(out, &buffer, answer)
}
