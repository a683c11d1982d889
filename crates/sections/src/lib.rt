// Bytes and addresses: little-endian fields of a byte slice, edits of one, and lookup of an address in the two sections
// of a drawable. No public function requires anything of its caller.
#![tactic(auto)]

mod edits;
mod fields;
mod lists;
mod lookup;
mod range;
mod reader;

pub use edits::{copy_into, copy_within, zero};
pub use fields::{put_u8_le, put_u16_le, put_u32_le, put_u64_le, u8_le, u16_le, u32_le, u64_le};
pub use lists::{PointerListHeader, Unresolved};
pub use lookup::{GRAPHICS_BASE, Located, SECTION_LIMIT, SYSTEM_BASE};
pub use range::ends_inside;
pub use reader::ResReader;
