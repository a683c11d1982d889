// Stored indices as the list has them, four bytes each: those of two bytes are widened, those of four copied.
ghost use Rattle.std.specs.Prelude.{◌≡◌, ◌+◌, ◌*◌, ◌/◌, ◌≤◌, length};
ghost use Rattle.sections.specs.Edit.{overwrite};
ghost use Rattle.vertices.specs.Runs.{run};
ghost use Rattle.halls.specs.Inner.Measure.{whole_numbers};

use crate::format::fields::{set_u32, u16_at};
use sections::copy_into;

// `raw.chunks_exact(2)` zipped with `chunks_exact_mut(4)` of `out` takes 0.53 of this loop's time alone, but what the loop leaves in `out` was not proved: its
// invariant cannot name the slice that is written. The hall list meets its goal with this loop, 1.3 of `memcpy` (docs/PERFORMANCE.md).
pub fn put_widened(out: &mut [u8], at: usize, raw: &[u8])
    requires { at + length raw.now / 2 * 4 ≤ length out.old }
    ensures { out.new ≡ overwrite out.old at (run 4 (whole_numbers 2 raw.now)) }
{
    for i in 0..raw.len() / 2 {
        set_u32(out, at + i * 4, u32::from(u16_at(raw, i * 2)));
    }
}

// Four-byte indices stay as they are.
pub fn put_copied(out: &mut [u8], at: usize, raw: &[u8])
    requires { (length raw.now / 4 * 4 ≡ length raw.now) × (at + length raw.now ≤ length out.old) }
    ensures { out.new ≡ overwrite out.old at (run 4 (whole_numbers 4 raw.now)) }
{
    copy_into(out, at, raw);
}
