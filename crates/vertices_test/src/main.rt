// Compares the crate `vertices` with answers of the Rust, kept in files that tests/expected/vertices.rs makes, and prints for
// each file how many agree. Of those that do not, the first is printed with its input.
#![tactic(auto)]

mod cases;
mod files;

use cases::Kind;
use files::compare;
use std::io::{self, BufWriter, Write};

fn main(rt: HostRuntime) -> io::Result<()> {
    let mut out = BufWriter::new(rt.alloc(), io::writer(&rt))?;
    for kind in Kind::ALL {
        compare(&rt, &mut out, kind)?;
    }
    let colour = vertices::snorm_colour8(vertices::snorm8_to_f32(0));
    writeln!(out, "snorm byte 0 as colour: {colour}")?;
    out.flush()
}
