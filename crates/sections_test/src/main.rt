// Runs the rows of standard input through the crate `sections` and prints a line for each: what was called, what with, in
// hexadecimal, and what came of it. tests/expected/sections.py makes both the rows and the lines that must come out.
#![tactic(auto)]

mod buffers;
mod edits;
mod fields;
mod lists;
mod lookup;

use std::io::{self, BufReader, BufWriter, Write};
use testing::{ROW, Row, each_row};

// The one place that reads the kind's number: an enum would be a second table beside this one.
fn run(out: &mut impl Write, row: Row) -> io::Result<()> {
    match row.kind {
        0 => lookup::locate_row(out, row),
        1 => lookup::resolve_row(out, row),
        2 => lookup::bytes_of_row(out, row),
        3 => lookup::within_limit_row(out, row),
        4 => lists::locate_list_row(out, row),
        5 => lists::header_row(out, row),
        6 => fields::read_row(out, row),
        7 => fields::write_row(out, row),
        8 => edits::copy_within_row(out, row),
        9 => edits::copy_into_row(out, row),
        10 => edits::zero_row(out, row),
        _ => writeln!(out, "unknown row"),
    }
}

fn main(rt: HostRuntime) -> io::Result<()> {
    let alloc = rt.alloc();
    let mut input = BufReader::new(alloc, rt.reader())?;
    let mut out = BufWriter::new(alloc, io::writer(&rt))?;
    each_row(&mut input, ROW, |_, row| run(&mut out, row))?;
    out.flush()
}
