// What a test program is asked.
use crate::buffers::{first, first_mut, read_full, rest};
use sections::ResReader;
use std::array;
use std::io::{self, Read, Write};

// The bytes of a row: of its six numbers, or of a seventh too, which is how many bytes follow.
pub const ROW: usize = 48;

pub const ROW_WITH_DATA: usize = 56;

// What is called, the numbers that it is called with, how many bytes follow, and those bytes, none until they are read.
#[derive(Clone, Copy)]
pub struct Row<'a> {
    pub kind: u64,
    pub a: u64,
    pub b: u64,
    pub c: u64,
    pub d: u64,
    pub e: u64,
    pub follow: u64,
    pub data: &'a [u8],
}

impl<'a> Row<'a> {
    // Two sections in the row's bytes: the first `cut` of them, and the others.
    pub fn sections(self, cut: usize) -> ResReader<'a> {
        ResReader::new(first(self.data, cut), rest(self.data, cut))
    }

    // The row and the bytes that follow it in an input, where the room has so many. What the input lacks of them stays as the room has it.
    pub fn with_data<'b>(self, input: &mut impl Read, room: &'b mut [u8]) -> io::Result<Row<'b>> {
        let count = self.follow as usize;
        if let Some(part) = room.get_mut(..count) {
            read_full(input, part)?;
        }
        Ok(Row {
            data: first(room, count),
            ..self
        })
    }
}

// The row of six or seven little-endian numbers; without the seventh, no bytes follow.
fn row_in(raw: &[u8]) -> Row<'static> {
    let [kind, a, b, c, d, e, follow]: [u64; 7] = array::from_fn(|i| sections::u64_le(raw, 8 * i));
    Row {
        kind,
        a,
        b,
        c,
        d,
        e,
        follow,
        data: &[],
    }
}

// The next row of an input, of so many bytes, none where fewer are left.
fn next_row(input: &mut impl Read, size: usize) -> io::Result<Option<Row<'static>>> {
    let mut room = [0; ROW_WITH_DATA];
    let raw = first_mut(&mut room, size);
    if read_full(input, raw)? < raw.len() {
        return Ok(None);
    }
    Ok(Some(row_in(raw)))
}

// Runs every row of an input, of ROW or ROW_WITH_DATA bytes; `run` may read those that follow it. The turns are counted, since nothing says that an
// input ends.
pub fn each_row<R: Read, F: FnMut(&mut R, Row) -> io::Result<()>>(
    input: &mut R,
    size: usize,
    mut run: F,
) -> io::Result<()>
    requires { F.IsAlwaysCallable run }
{
    for _ in 0..u64::MAX {
        match next_row(input, size)? {
            Some(row) => run(input, row)?,
            None => break,
        }
    }
    Ok(())
}

// The first `count` numbers that a call takes.
pub fn numbers(out: &mut impl Write, row: Row, count: usize) -> io::Result<()> {
    for n in [row.a, row.b, row.c, row.d, row.e].iter().take(count) {
        write!(out, " {n:x}")?;
    }
    write!(out, ":")
}
