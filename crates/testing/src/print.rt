// What a line is made of.
use sections::Located;
use std::io::{self, Write};

// How a line about an edit says its answer.
pub fn done(answer: bool) -> &'static str {
    if answer { "done" } else { "refused" }
}

// A section's name and the offset in it.
pub fn place(out: &mut impl Write, p: Located) -> io::Result<()> {
    match p {
        Located::System(at) => write!(out, " system {at:x}"),
        Located::Graphics(at) => write!(out, " graphics {at:x}"),
    }
}

// A space and the bytes, two digits each.
pub fn bytes(out: &mut impl Write, b: &[u8]) -> io::Result<()> {
    write!(out, " ")?;
    for byte in b {
        write!(out, "{byte:02x}")?;
    }
    Ok(())
}
