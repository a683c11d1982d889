// Rows about the hall check: whether the first a bytes of what is lent are a hall.
use crate::buffers::{SECTION, put_row};
use halls::hall_check;
use std::io::{self, Write};
use testing::{Row, checksum, first, zeros};

// How many bytes are asked about, the bytes lent, by their number and checksum, and the verdict with the check's number in decimal.
fn verdict(out: &mut impl Write, lent: &[u8], row: Row) -> io::Result<()> {
    write!(out, " {:x} {:x} {:x}", row.a, lent.len(), checksum(lent))?;
    match hall_check(lent, row.a as usize) {
        Ok(()) => writeln!(out, ": sound"),
        Err(refusal) => writeln!(out, ": fails {}", refusal.check),
    }
}

// The row's bytes are lent.
pub fn check_row(out: &mut impl Write, row: Row) -> io::Result<()> {
    write!(out, "check")?;
    verdict(out, row.data, row)
}

// b bytes, at most 589,824, made by e runs, are lent.
#[inline(never)]
pub fn long_check_row(out: &mut impl Write, row: Row) -> io::Result<()> {
    let mut list = zeros::<SECTION>();
    put_row(&mut list, row);
    write!(out, "long check")?;
    verdict(out, first(&list, row.b as usize), row)
}
