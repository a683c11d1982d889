// Pointers of a list, and the entries of a model's two lists, one after another.
ghost use Rattle.std.specs.Prelude.{◌≡◌};
ghost use Rattle.std.specs.Iterator.{YieldsFirst, item_count};
ghost use Rattle.halls.specs.Inner.Measure.{entries_of, whole_numbers};

use sections::{u16_le, u64_le};
use std::marker::Model;

// Seen as the list of the pointers that are left.
#[derive(Drop)]
pub struct Pointers<'a> {
    left: &'a [u8],
}

impl<'a> Model for Pointers<'a> {
    ghost use Rattle.std.specs.Prelude.{List, ℕ};
    ghost use Rattle.halls.specs.Inner.Measure.{whole_numbers};

    ghost Value = { List ℕ };

    ghost view = { λ p. whole_numbers 8 p.left.now };
}

impl<'a> Pointers<'a> {
    pub fn new(left: &'a [u8]) -> Self
        ensures { result ≡ whole_numbers 8 left.now }
    {
        Pointers { left }
    }
}

impl<'a> Iterator for Pointers<'a> {
    type Item = u64;

    ghost next_gives = { YieldsFirst (λ rest. rest) };

    ghost remaining = { item_count (λ rest. rest) };

    fn next(&mut self) -> Option<u64> {
        let (first, left) = self.left.split_first_chunk::<8>()?;
        self.left = left;
        // Not by `u64::from_le_bytes`: that the bytes are below 256, which its proof asks for, the check does not know here.
        Some(u64_le(first, 0))
    }
}

// A pointer to a geometry, with its shader id.
#[derive(Clone, Copy)]
pub struct Entry {
    pub shader: u16,
    pub pointer: u64,
}

// Seen as the list of the entries that are left. A pointer behind the end of the mapping has shader id 0.
#[derive(Drop)]
pub struct Entries<'a> {
    pointers: Pointers<'a>,
    mapping: &'a [u8],
}

impl<'a> Model for Entries<'a> {
    ghost use Rattle.std.specs.Prelude.{List};
    ghost use Rattle.halls.specs.Inner.Measure.{entries_of, whole_numbers};
    ghost use Rattle.halls.specs.declared.read.entries.Entry.{Entry};

    ghost Value = { List Entry };

    ghost view = { λ e. entries_of (whole_numbers 2 e.mapping.now) e.pointers };
}

impl<'a> Entries<'a> {
    pub fn new(pointers: &'a [u8], mapping: &'a [u8]) -> Self
        ensures { result ≡ entries_of (whole_numbers 2 mapping.now) (whole_numbers 8 pointers.now) }
    {
        Entries {
            pointers: Pointers::new(pointers),
            mapping,
        }
    }
}

impl<'a> Iterator for Entries<'a> {
    type Item = Entry;

    ghost next_gives = { YieldsFirst (λ rest. rest) };

    ghost remaining = { item_count (λ rest. rest) };

    fn next(&mut self) -> Option<Entry> {
        let pointer = self.pointers.next()?;
        let mapping = self.mapping;
        self.mapping = &mapping[mapping.len().min(2)..];
        Some(Entry {
            shader: u16_le(mapping, 0),
            pointer,
        })
    }
}
