// Makes the lists of calls of standard input, each in one buffer from call to call, and prints a line for each call: what was asked, in hexadecimal, and
// what was answered, with the checksum of the whole buffer and what is short of its bytes. tests/expected/lists.py makes the lists and the lines.
#![tactic(auto)]

mod lists;

use lists::Bench;
use std::io::{self, BufReader, BufWriter, Write};
use testing::{ROW_WITH_DATA, each_row};

// At most 4,096 bytes follow a row.
fn main(rt: HostRuntime) -> io::Result<()> {
    let alloc = rt.alloc();
    let mut input = BufReader::new(alloc, rt.reader())?;
    let mut out = BufWriter::new(alloc, io::writer(&rt))?;
    let mut bench = Bench {
        hall: [0; 4096],
        image: [0; 16384],
        room: 0,
        n: 0,
    };
    each_row(&mut input, ROW_WITH_DATA, |input, row| {
        let mut room = [0; 4096];
        bench.run(&mut out, row.with_data(input, &mut room)?)
    })?;
    out.flush()
}
