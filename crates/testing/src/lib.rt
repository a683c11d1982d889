// What the test programs share: rows and the values in them, parts of buffers, and what a line is made of.
#![tactic(auto)]

mod buffers;
mod print;
mod rows;
mod values;

pub use buffers::{checksum, fill, first, first_mut, pattern, read_full, rest, unwritten, zeros};
pub use print::{bytes, done, place};
pub use rows::{ROW, ROW_WITH_DATA, Row, each_row, numbers};
pub use values::value_in;
