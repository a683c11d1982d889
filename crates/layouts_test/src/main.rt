// Runs the rows of standard input through the crate `vertices` and prints a line for each: what was called, what with, in
// hexadecimal, and what came of it. tests/expected/layouts.py makes both the rows and the lines that must come out.
#![tactic(auto)]

mod attributes;
mod declarations;
mod encoding;
mod located;
mod names;
mod unified;
mod values;

use std::io::{self, BufReader, BufWriter, Write};
use testing::{ROW_WITH_DATA, Row, each_row};

// The one place that reads the kind's number: an enum would be a second table beside this one.
fn run(out: &mut impl Write, row: Row) -> io::Result<()> {
    match row.kind {
        0 => declarations::type_row(out, row),
        1 => declarations::semantic_row(out, row),
        2 => declarations::id_row(out, row),
        3 => declarations::components_row(out, row),
        4 => declarations::component_row(out, row),
        5 => declarations::read_row(out, row),
        6 => declarations::write_row(out, row),
        7 => declarations::position_only_row(out, row),
        8 => located::buffer_row(out, row),
        9 => values::seen_row(out, row),
        10 => attributes::attributes_row(out, row),
        11 => unified::unify_row(out, row),
        12 => encoding::encode_row(out, row),
        13 => unified::unify_many_row(out, row),
        _ => writeln!(out, "unknown row"),
    }
}

// At most 512 bytes follow a row.
fn main(rt: HostRuntime) -> io::Result<()> {
    let alloc = rt.alloc();
    let mut input = BufReader::new(alloc, rt.reader())?;
    let mut out = BufWriter::new(alloc, io::writer(&rt))?;
    each_row(&mut input, ROW_WITH_DATA, |input, row| {
        let mut room = [0; 512];
        run(&mut out, row.with_data(input, &mut room)?)
    })?;
    out.flush()
}
