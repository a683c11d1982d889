// Rows about the list of a drawable, behind the header at address c, in a buffer of d bytes.
use crate::buffers::{SECTION, put_row};
use halls::{Refusal, hall_list};
use replay::{lent, outcome};
use sections::ResReader;
use std::io::{self, Write};
use testing::{Row, first, numbers, unwritten, zeros};

// hall_list into the first d bytes.
fn list_into(reader: &ResReader, row: Row, list: &mut [u8]) -> Result<u64, Refusal> {
    hall_list(reader, row.c, lent(list, row.d as usize)?)
}

// Sections of a and b bytes, in the row.
pub fn list_row(out: &mut impl Write, row: Row) -> io::Result<()> {
    let mut list = unwritten::<4096>();
    write!(out, "list")?;
    numbers(out, row, 4)?;
    let answer = list_into(&row.sections(row.a as usize), row, &mut list);
    outcome(out, answer, &list)
}

// A system section of a bytes, at most 589,824, made by e runs, and an empty graphics section. Not inline, here and at the other rows with
// long buffers: in one frame the buffers of all of them would stand beside each other on the stack.
#[inline(never)]
pub fn long_row(out: &mut impl Write, row: Row) -> io::Result<()> {
    let mut section = zeros::<SECTION>();
    put_row(&mut section, row);
    write!(out, "long")?;
    numbers(out, row, 5)?;
    let reader = ResReader::new(first(&section, row.a as usize), &[]);
    let mut list = unwritten::<SECTION>();
    let answer = list_into(&reader, row, &mut list);
    outcome(out, answer, &list)
}

// bone_index and is_skinned, of the binding a.
pub fn binding_row(out: &mut impl Write, row: Row) -> io::Result<()> {
    let binding = (row.a % 4294967296) as u32;
    write!(out, "binding")?;
    numbers(out, row, 1)?;
    let skinned = halls::is_skinned(binding);
    writeln!(
        out,
        " {:x} {}",
        halls::bone_index(binding),
        if skinned { "skinned" } else { "rigid" }
    )
}
