// The buffers that rows run on.
use sections::ResReader;
use testing::{Row, first, pattern, unwritten};

// Two sections, and how many of the bytes of each a row uses: with no heap, a section is the first bytes of an array.
#[derive(Drop)]
pub struct Sections {
    system: [u8; 64],
    system_size: usize,
    graphics: [u8; 64],
    graphics_size: usize,
}

impl Sections {
    // Of the sizes a and b, at most 64.
    pub fn of(row: Row) -> Self {
        Self {
            system: unwritten(),
            system_size: row.a as usize,
            graphics: pattern(65),
            graphics_size: row.b as usize,
        }
    }

    // Two zeros at an offset of both, where they fit.
    pub fn with_gap(mut self, at: usize) -> Self {
        sections::zero(&mut self.system, at, 2);
        sections::zero(&mut self.graphics, at, 2);
        self
    }

    pub fn reader(&self) -> ResReader<'_> {
        ResReader::new(
            first(&self.system, self.system_size),
            first(&self.graphics, self.graphics_size),
        )
    }
}
