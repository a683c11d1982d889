// Rows about the calls that change a hall. The first a bytes of the b lent, at most 4,096, are the hall.
// A row's bytes are further arguments, 32 but for an added geometry, then how the buffer begins; a pattern follows.
use replay::{Call, outcome, run_call};
use sections::u64_le;
use std::io::{self, Write};
use testing::{Row, bytes, first, numbers, rest, unwritten};

pub fn hall_buffer(row: Row, at: usize) -> [u8; 4096] {
    let mut b = unwritten();
    sections::copy_into(&mut b, 0, rest(row.data, at));
    b
}

// How many bytes of a row are further arguments.
fn further(call: Call, row: Row) -> usize {
    match call {
        Call::AddGeometry => 56 + (u64_le(row.data, 16) % 4096) as usize,
        _ => 32,
    }
}

// What the call is given: so many of the row's numbers, and so many of its bytes.
fn given(out: &mut impl Write, call: Call, row: Row) -> io::Result<()> {
    let (count, shown) = match call {
        Call::RemoveModel => (3, 0),
        Call::AddModel | Call::RemoveGeometry => (4, 0),
        Call::ReplaceIndices => (4, 32),
        Call::SetAttribute => (5, 32),
        Call::AddGeometry => (5, 56),
    };
    write!(out, "{call}")?;
    numbers(out, row, count)?;
    if shown != 0 {
        bytes(out, first(row.data, shown))?;
        write!(out, ":")?;
    }
    Ok(())
}

pub fn call_row(out: &mut impl Write, call: Call, row: Row) -> io::Result<()> {
    let end = further(call, row);
    let mut b = hall_buffer(row, end);
    given(out, call, row)?;
    let arguments = Row {
        data: first(row.data, end),
        ..row
    };
    let answer = run_call(call, &mut b, row.a as usize, row.b as usize, arguments);
    outcome(out, answer, &b)
}
