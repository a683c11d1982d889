// Lists behind a pointer: where their elements lie, and the header that gives pointer and count.
ghost use Rattle.std.specs.Prelude.{◌≡◌};
ghost use Rattle.sections.specs.Address.{sections_of};
ghost use Rattle.sections.specs.Lists.{located_list, header_at, header_length};

use crate::fields::{u16_le, u64_le};
use crate::lookup::Located;
use crate::reader::ResReader;
use std::{error, fmt};

// A list that has elements, whose bytes are not there.
#[derive(Clone, Copy, Debug, PartialEq, Eq)]
pub struct Unresolved;

impl fmt::Display for Unresolved {
    fn fmt<W: fmt::Write>(&self, f: &mut fmt::Formatter<W>) -> fmt::Result {
        f.write_str("a list's elements do not lie in the sections")
    }
}

impl error::Error for Unresolved {}

// 16 bytes: pointer at 0, count at 8, capacity at 10.
#[derive(Clone, Copy, Debug, Default, PartialEq, Eq)]
pub struct PointerListHeader {
    pub pointer: u64,
    pub count: u16,
    pub capacity: u16,
}

impl PointerListHeader {
    // The number of elements: the count, or the capacity where the count is 0.
    pub fn len(self) -> u16
        ensures { result ≡ header_length self }
    {
        if self.count == 0 {
            self.capacity
        } else {
            self.count
        }
    }
}

impl<'a> ResReader<'a> {
    // Where the elements of a list lie, count of width bytes each. A list with count 0 or pointer 0 is empty, never an error.
    #[tactic(auto, unfolding(crate::specs::Lists::located_list))]
    pub fn locate_list(&self, va: u64, count: u32, width: u8) -> Result<Option<Located>, Unresolved>
        ensures { result ≡ located_list (sections_of self.now) va count width }
    {
        if count == 0 || va == 0 {
            return Ok(None);
        }
        let place = self
            .locate(va, count as usize * usize::from(width))
            .ok_or(Unresolved)?;
        Ok(Some(place))
    }

    pub fn read_pointer_list_header(&self, va: u64) -> Option<PointerListHeader>
        ensures { result ≡ header_at (sections_of self.now) va }
    {
        let raw = self.resolve(va, 16)?;
        Some(PointerListHeader {
            pointer: u64_le(raw, 0),
            count: u16_le(raw, 8),
            capacity: u16_le(raw, 10),
        })
    }
}
