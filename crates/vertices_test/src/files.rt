// The records of a file, one after the other.
use crate::cases::{Case, Kind};
use std::fs;
use std::io::{self, Read, Write};
use std::rt::Files;
use testing::{read_full, zeros};

// A whole number of records of every kind: a multiple of 84.
const CHUNK: usize = 65_520;

#[derive(Clone, Copy, Default)]
struct Tally {
    records: u64,
    agree: u64,
}

impl Tally {
    // The first case that disagrees is printed, in hexadecimal.
    fn count(&mut self, out: &mut impl Write, kind: Kind, c: Case) -> io::Result<()> {
        if c.expected == c.got {
            self.agree = self.agree.wrapping_add(1);
        } else if self.agree == self.records {
            writeln!(
                out,
                "{kind} differs: input {:x} expected {:x} got {:x}",
                c.input, c.expected, c.got
            )?;
        }
        self.records = self.records.wrapping_add(1);
        Ok(())
    }

    fn count_chunk(&mut self, out: &mut impl Write, kind: Kind, chunk: &[u8]) -> io::Result<()> {
        for record in chunk.chunks_exact(kind.width()) {
            self.count(out, kind, kind.case(self.records, record))?;
        }
        Ok(())
    }
}

// Reads until nothing comes. The turns are counted, since nothing says that a file ends.
fn compare_all(out: &mut impl Write, kind: Kind, file: &mut impl Read) -> io::Result<Tally> {
    let mut tally = Tally::default();
    let mut bytes = zeros::<CHUNK>();
    for _ in 0..u64::MAX {
        let n = read_full(file, &mut bytes)?;
        if n == 0 {
            break;
        }
        tally.count_chunk(out, kind, &bytes[..n])?;
    }
    Ok(tally)
}

// A file that does not open is reported on standard error, and no line is printed for it.
pub fn compare(rt: &(impl Files + Eprint), out: &mut impl Write, kind: Kind) -> io::Result<()> {
    let path = kind.path();
    let mut file = match fs::open(rt, path) {
        Ok(file) => file,
        Err(e) => return eprintln!(rt; "{path}: {e}"),
    };
    let tally = compare_all(out, kind, &mut file)?;
    writeln!(out, "{kind}: {} of {} agree", tally.agree, tally.records)
}
