// Sections and halls that are longer than a row.
use sections::{put_u64_le, u64_le};
use testing::{Row, first, rest};

// The bytes of a section or of a list of 16,384 geometries, and of a hall of as many models and geometries as check 13 allows.
pub const SECTION: usize = 589_824;

pub const HALL: usize = 1_494_016;

// What a row's bytes say of a section or hall, over zeros: first e runs of 32 bytes, then how it begins; of 100 runs or more, nothing. The buffer is
// the caller's: an array as answer would be copied, and its room on the stack taken twice, where a program is compiled without optimisation.
pub fn put_row(b: &mut [u8], row: Row) {
    let runs = row.e as usize;
    if runs < 100 {
        let end = runs * 32;
        sections::copy_into(b, 0, rest(row.data, end));
        for run in first(row.data, end).chunks_exact(32) {
            put_run(b, run);
        }
    }
}

// A number over and over: at an offset, so many bytes apart, so many times, as far as they fit.
fn put_run(b: &mut [u8], run: &[u8]) {
    let start = u64_le(run, 0) as usize;
    let step = u64_le(run, 8) as usize;
    let value = u64_le(run, 24);
    for i in 0..u64_le(run, 16) as usize {
        put_u64_le(b, start.wrapping_add(step.wrapping_mul(i)), value);
    }
}
