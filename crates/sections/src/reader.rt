// The two sections of a drawable, read together: lookup of an address, and the bytes behind it.
ghost use Rattle.std.specs.Prelude.{◌≡◌, option_and_then};
ghost use Rattle.std.specs.Option.{option_copied};
ghost use Rattle.sections.specs.Address.{sections_of, located, part_of, range_of, resolved, within_limit};

use crate::lookup::{GRAPHICS_BASE, Located, SECTION_LIMIT, SYSTEM_BASE};
use crate::range::ends_inside;

// No `impl Model`: a view of the bytes forgets which slices they are, and a struct with a lifetime and a model cannot be `Copy`.
#[derive(Clone, Copy)]
pub struct ResReader<'a> {
    pub system: &'a [u8],
    pub graphics: &'a [u8],
}

impl<'a> ResReader<'a> {
    pub fn new(system: &'a [u8], graphics: &'a [u8]) -> ResReader<'a>
        ensures { (result.system ≡ system.entry) × (result.graphics ≡ graphics.entry) }
    {
        ResReader { system, graphics }
    }

    // Check 1: both sections are within the limit.
    #[tactic(auto, unfolding(crate::specs::Address::within_limit))]
    pub fn within_limit(&self) -> bool
        ensures { result ≡ within_limit (sections_of self.now) }
    {
        self.system.len() <= SECTION_LIMIT && self.graphics.len() <= SECTION_LIMIT
    }

    // Where the len bytes behind an address lie. Each base has two bits set: an address with both is of its section, and graphics is tried first.
    pub fn locate(&self, va: u64, len: usize) -> Option<Located>
        ensures { result ≡ located (sections_of self.now) va len }
    {
        if va == 0 {
            return None;
        }
        if va & GRAPHICS_BASE == GRAPHICS_BASE {
            let at = (va - GRAPHICS_BASE) as usize;
            return ends_inside(at, len, self.graphics.len()).then_some(Located::Graphics(at));
        }
        if va & SYSTEM_BASE == SYSTEM_BASE {
            let at = (va - SYSTEM_BASE) as usize;
            return ends_inside(at, len, self.system.len()).then_some(Located::System(at));
        }
        None
    }

    // The len bytes at a place as one slice, so that a reader need not know the section; none of no place, or where they do not end inside it.
    pub fn bytes_of(&self, place: Option<Located>, len: usize) -> Option<&'a [u8]>
        ensures { option_copied result ≡ option_and_then (λ p. range_of (sections_of self.now) p len) place }
    {
        match place? {
            Located::System(at) => part_of(self.system, at, len),
            Located::Graphics(at) => part_of(self.graphics, at, len),
        }
    }

    // The len bytes behind an address.
    #[tactic(auto, unfolding(crate::specs::Address::resolved))]
    pub fn resolve(&self, va: u64, len: usize) -> Option<&'a [u8]>
        ensures { option_copied result ≡ resolved (sections_of self.now) va len }
    {
        self.bytes_of(self.locate(va, len), len)
    }
}

#[tactic(auto, unfolding(crate::specs::Address::part_of))]
fn part_of<'a>(s: &'a [u8], at: usize, len: usize) -> Option<&'a [u8]>
    ensures { option_copied result ≡ part_of s.now at len }
{
    s.get(at..)?.get(..len)
}
