// A geometry's indices replaced in place: what stands behind them moves up or down.
ghost use Rattle.std.specs.Prelude.{◌≡◌, ◌++◌, ◌+◌, ◌*◌, ◌-◌, ◌<◌, ◌≤◌, ◌^◌, length, take, drop};
ghost use Rattle.halls.specs.Calls.{replace_indices};
ghost use Rattle.halls.specs.Inner.NewIndices.{indices_verdict, with_new_indices};
ghost use Rattle.halls.specs.Inner.Order.{verdict_of};
ghost use Rattle.halls.specs.Step.{rewritten, Stepped};
ghost use Rattle.halls.specs.Inner.Walk.{units};

use crate::answer::{Refusal, room};
use crate::check::find::find_placed;
use crate::check::order::verdict_of;
use crate::check::pass::{Summary, size_lowest};
use crate::check::scan::lent_indices_lowest;
use crate::check::sought::GeometryId;
use crate::edit::remove::close_gap;
use crate::format::record::put_indices;
use sections::{copy_within, put_u32_le, u16_le, u32_le};

// Replaces all indices of a geometry, in the hall of the first n bytes.
pub fn replace_indices(
    hall: &mut [u8],
    n: usize,
    replaced: GeometryId,
    indices: &[u32],
) -> Result<u64, Refusal>
    ensures { Stepped (replace_indices replaced.model replaced.index indices.now) hall.old n result hall.new }
{
    let found = find_placed(hall, n, replaced)?;
    let at = found.places.geometry;
    let start = found.places.indices;
    let count = u32::from(u16_le(hall, at + 16));
    let held = u32_le(hall, start + 6) as usize;
    verdict_of(indices_lowest(indices, count, held, found.summary))?;
    let needed = n - 4 * held + 4 * indices.len();
    room(24, hall.len(), needed as u64)?;
    rewrite(hall, n, at, start, held, indices);
    Ok(needed as u64)
}

// The rank of the first of checks 17, 18, 27 and 19 that new indices of a geometry of `limit` vertices fail in the place of `held`, or PASSED.
fn indices_lowest(indices: &[u32], limit: u32, held: usize, found: Summary) -> u8
    requires { (units (2 * held) ≤ found.units) × (found.models ≤ 256) × (found.units ≤ 4194304) }
    ensures { verdict_of result ≡ indices_verdict indices.now limit found.models (found.units - units (2 * held) + units (2 * length indices.now)) }
{
    let lowest = lent_indices_lowest(indices, limit);
    let parts = found.units - held.div_ceil(8) + indices.len().div_ceil(8);
    lowest.min(size_lowest(found.models, parts))
}

// The list's new bytes, where the indices' record begins at `start` and the lent buffer is long enough.
fn rewrite(hall: &mut [u8], n: usize, at: usize, start: usize, held: usize, indices: &[u32])
    requires inside { (at + 20 ≤ start) × (start + 10 + 4 * held ≤ n) × (n ≤ length hall.old) }
    requires room { n - 4 * held + 4 * length indices.now ≤ length hall.old }
    requires few { 4 + 4 * length indices.now < 2 ^ 32 }
    ensures { hall.new ≡ rewritten hall.old n (with_new_indices (take n hall.old) at start (start + 10 + 4 * held) indices.now) }
{
    let count = indices.len();
    move_tail(hall, n, start + 10 + 4 * held, start + 10 + 4 * count);
    put_indices(hall, start, &indices);
    put_u32_le(hall, at + 8, count as u32);
    put_u32_le(hall, at + 12, (count / 3) as u32);
}

// The bytes from `from` on to the n-th moved to begin at `to`; bytes that this frees become zero.
fn move_tail(hall: &mut [u8], n: usize, from: usize, to: usize)
    requires { (from ≤ n) × (n ≤ length hall.old) × (to + (n - from) ≤ length hall.old) }
    ensures { hall.new ≡ rewritten hall.old n (take to hall.old ++ drop from (take n hall.old)) }
{
    if to <= from {
        close_gap(hall, n, to, from);
        return;
    }
    copy_within(hall, from, to, n - from);
}
