// Rows about unified vertices.
use crate::declarations::vertices_of;
use std::io::{self, Write};
use testing::{Row, bytes, checksum, first, numbers, rest, unwritten};
use vertices::{NeedsBytes, UnifyError};

// The bytes of 147 vertices, and 4 more.
const LONG: usize = 12_352;

// The answer, the checksum of the whole output, and the part of it that is shown.
fn outcome(
    out: &mut impl Write,
    answer: Result<u64, UnifyError>,
    to: &[u8],
    shown: &[u8],
) -> io::Result<()> {
    match answer {
        Ok(n) => write!(out, " written {n:x}")?,
        Err(UnifyError::OutsideData) => write!(out, " outside")?,
        Err(UnifyError::NeedsBytes(NeedsBytes(n))) => write!(out, " needs {n:x}")?,
    }
    write!(out, " {:x}", checksum(to))?;
    bytes(out, shown)?;
    writeln!(out)
}

// unified_vertices, of data with stride a and b vertices, by a declaration of flags c and types d, into an output of e bytes,
// at most 512; for more there is no call, and the line says that it needs 0. Prints the checksum of all 512 bytes that the output was lent of, and its
// first 100 bytes.
pub fn unify_row(out: &mut impl Write, row: Row) -> io::Result<()> {
    let mut to = unwritten::<512>();
    write!(out, "unify")?;
    numbers(out, row, 5)?;
    let answer = match to.get_mut(..row.e as usize) {
        Some(part) => vertices::unified_vertices(vertices_of(row), part),
        None => Err(UnifyError::NeedsBytes(NeedsBytes(0))),
    };
    outcome(out, answer, &to, first(&to, 100))
}

// unified_vertices as above, into an output of several blocks of vertices. Prints the checksum of all its bytes, and its last 88 bytes.
pub fn unify_many_row(out: &mut impl Write, row: Row) -> io::Result<()> {
    let mut to = unwritten::<LONG>();
    write!(out, "unify many")?;
    numbers(out, row, 4)?;
    let answer = vertices::unified_vertices(vertices_of(row), &mut to);
    outcome(out, answer, &to, rest(&to, LONG - 88))
}
