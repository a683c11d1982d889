// Reads the drawables of standard input through the crate `halls`, checks its halls, makes its calls and finds what is in them, and prints
// a line for each: what was asked, in hexadecimal, and what was answered; of a drawable or a call also the buffer's checksum and a short
// list's bytes. tests/expected/halls.py makes the drawables, the halls, the calls and the lines.
#![tactic(auto)]

mod buffers;
mod calls;
mod checks;
mod drawables;
mod finds;

use finds::Finder;
use replay::Call;
use std::io::{self, BufReader, BufWriter, Write};
use testing::{ROW_WITH_DATA, Row, each_row};

// The kinds of calls are those of `replay`. This is the one place that reads the others' numbers: an enum would be a second table beside it.
fn run(out: &mut impl Write, row: Row) -> io::Result<()> {
    if let Ok(call) = Call::try_from(row.kind) {
        return calls::call_row(out, call, row);
    }
    match row.kind {
        0 => drawables::list_row(out, row),
        1 => drawables::long_row(out, row),
        2 => drawables::binding_row(out, row),
        3 => checks::check_row(out, row),
        4 => checks::long_check_row(out, row),
        9 => finds::find_row(out, Finder::Model, row),
        10 => finds::find_row(out, Finder::Geometry, row),
        13 => finds::crowded_row(out, Finder::Model, row),
        14 => finds::crowded_row(out, Finder::Geometry, row),
        _ => writeln!(out, "unknown row"),
    }
}

// At most 4,096 bytes follow a row.
fn main(rt: HostRuntime) -> io::Result<()> {
    let alloc = rt.alloc();
    let mut input = BufReader::new(alloc, rt.reader())?;
    let mut out = BufWriter::new(alloc, io::writer(&rt))?;
    each_row(&mut input, ROW_WITH_DATA, |input, row| {
        let mut room = [0; 4096];
        run(&mut out, row.with_data(input, &mut room)?)
    })?;
    out.flush()
}
