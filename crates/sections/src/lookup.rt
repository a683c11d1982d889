// Addresses: where each section begins, how long it may be, and a place in one. `ResReader` looks an address up.

pub const SYSTEM_BASE: u64 = 0x5000_0000;

pub const GRAPHICS_BASE: u64 = 0x6000_0000;

// The most bytes that a section may have (check 1).
pub const SECTION_LIMIT: usize = 67_108_864;

// Where a range lies: the section, and the offset in it.
#[derive(Clone, Copy, Debug, PartialEq, Eq)]
pub enum Located {
    System(usize),
    Graphics(usize),
}
