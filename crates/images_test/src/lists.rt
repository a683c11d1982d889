// Rows of lists of calls. In each, a is the number of its list and b its own in there. A call gets the buffers and n as the row before left them.
use halls::Refusal;
use replay::{Call, accepted, lent, outcome, refused, run_call};
use sections::ResReader;
use std::fmt;
use std::io::{self, Write};
use testing::{Row, bytes, fill, first, numbers};

// What a row asks for.
#[derive(Clone, Copy)]
enum Asked {
    // A list starts, with n = c and d bytes lent: patterns in both buffers, and the row's bytes over the beginning of the hall's.
    List,
    Call(Call),
    // At address c, of sections that are the row's bytes, the first d of them the system section.
    TakeIn,
    // Into the first c bytes of the image buffer.
    Save,
    // At address c, of the first d bytes of the image buffer, without a graphics section.
    TakeInImage,
    // Of any other kind: the call is set_attribute, under this name.
    Unknown,
}

impl From<u64> for Asked {
    fn from(kind: u64) -> Self {
        match kind {
            0 => Asked::List,
            13 => Asked::TakeIn,
            14 => Asked::Save,
            15 => Asked::TakeInImage,
            _ => Call::try_from(kind).map_or(Asked::Unknown, Asked::Call),
        }
    }
}

impl fmt::Display for Asked {
    fn fmt<W: fmt::Write>(&self, f: &mut fmt::Formatter<W>) -> fmt::Result {
        match self {
            Asked::List => write!(f, "list"),
            Asked::Call(call) => write!(f, "{call}"),
            Asked::TakeIn => write!(f, "take in"),
            Asked::Save => write!(f, "save"),
            Asked::TakeInImage => write!(f, "take in the image"),
            Asked::Unknown => write!(f, "unknown"),
        }
    }
}

// The buffers, and where a list stands: the first `room` bytes of the hall's buffer are lent, and the first n of those are the hall.
#[derive(Drop)]
pub struct Bench {
    pub hall: [u8; 4096],
    pub image: [u8; 16384],
    pub room: usize,
    pub n: usize,
}

impl Bench {
    fn begin(&mut self, row: Row) {
        let seed = (row.e % 256) as u8;
        fill(&mut self.hall, seed);
        fill(&mut self.image, seed);
        sections::copy_into(&mut self.hall, 0, row.data);
        self.room = row.d as usize;
        self.n = row.c as usize;
    }

    fn take_in(&mut self, row: Row) -> Result<u64, Refusal> {
        let reader = row.sections(row.d as usize);
        halls::take_in(lent(&mut self.hall, self.room)?, self.n, &reader, row.c)
    }

    fn take_in_image(&mut self, row: Row) -> Result<u64, Refusal> {
        let reader = ResReader::new(first(&self.image, row.d as usize), &[]);
        halls::take_in(lent(&mut self.hall, self.room)?, self.n, &reader, row.c)
    }

    fn save(&mut self, row: Row) -> Result<u64, Refusal> {
        let hall = first(&self.hall, self.room);
        images::save(hall, self.n, lent(&mut self.image, row.c as usize)?)
    }

    // An accepted answer is the next n. Prints the line about it.
    fn finish_call(
        &mut self,
        out: &mut impl Write,
        answer: Result<u64, Refusal>,
    ) -> io::Result<()> {
        if let Ok(length) = answer {
            self.n = length as usize;
        }
        outcome(out, answer, &self.hall)
    }

    // The answer, the checksum of the whole image buffer, and the image where it has at most 576 bytes.
    fn finish_save(&self, out: &mut impl Write, answer: Result<u64, Refusal>) -> io::Result<()> {
        match answer {
            Ok(length) => {
                accepted(out, length, &self.image)?;
                if length <= 576 {
                    bytes(out, first(&self.image, length as usize))?;
                }
            }
            Err(refusal) => refused(out, refusal, &self.image)?,
        }
        writeln!(out)
    }

    pub fn run(&mut self, out: &mut impl Write, row: Row) -> io::Result<()> {
        let asked = Asked::from(row.kind);
        write!(out, "{asked}")?;
        numbers(out, row, 5)?;
        let answer = match asked {
            Asked::List => {
                self.begin(row);
                return writeln!(out);
            }
            Asked::Save => {
                let answer = self.save(row);
                return self.finish_save(out, answer);
            }
            Asked::Call(call) => run_call(call, &mut self.hall, self.n, self.room, row),
            Asked::TakeIn => self.take_in(row),
            Asked::TakeInImage => self.take_in_image(row),
            Asked::Unknown => {
                run_call(Call::SetAttribute, &mut self.hall, self.n, self.room, row)
            }
        };
        self.finish_call(out, answer)
    }
}
