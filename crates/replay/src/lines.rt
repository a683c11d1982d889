// How the line about a call ends.
use halls::Refusal;
use std::io::{self, Write};
use testing::{bytes, checksum, first};

// The length written, and the checksum of the whole buffer that a part was lent of.
pub fn accepted(out: &mut impl Write, length: u64, b: &[u8]) -> io::Result<()> {
    write!(out, " accepted {length:x} {:x}", checksum(b))
}

// The question's number, the needed bytes, and the checksum.
pub fn refused(out: &mut impl Write, refusal: Refusal, b: &[u8]) -> io::Result<()> {
    write!(
        out,
        " refused {:x} needed {:x} {:x}",
        refusal.check,
        refusal.needed,
        checksum(b)
    )
}

// The same of either answer, and of an accepted list its triangles, and its bytes where they are at most 256.
pub fn outcome(out: &mut impl Write, answer: Result<u64, Refusal>, list: &[u8]) -> io::Result<()> {
    match answer {
        Ok(length) => {
            accepted(out, length, list)?;
            let written = first(list, length as usize);
            write!(out, " {:x}", halls::triangle_count(written))?;
            if length <= 256 {
                bytes(out, written)?;
            }
        }
        Err(refusal) => refused(out, refusal, list)?,
    }
    writeln!(out)
}

// The first n bytes of a buffer; where there are fewer, number 0 on the line, which is no check's.
pub fn lent(b: &mut [u8], n: usize) -> Result<&mut [u8], Refusal> {
    b.get_mut(..n).ok_or(Refusal {
        check: 0,
        needed: 0,
    })
}
