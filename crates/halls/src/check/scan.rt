// Checks 18 and 27 of triangles: every index below a limit, and no two equal in a triangle; 17 before them, of indices that a caller lends.
// The loop over a block tests no range, is left only at its end and counts instead of stopping: so the compiler looks at several triangles at
// once. The check of a large hall is to take at most 1.2 of such a scan (docs/PERFORMANCE.md). Written in Rust, two `any` take 1.9 times as
// long, one loop that stops 1.2 to 2.5 times.
ghost use Rattle.std.specs.Prelude.{◌≡◌, ◌+◌, ◌*◌, ◌-◌, ◌≤◌, length, take, drop};
ghost use Rattle.halls.specs.Inner.Judging.{indices_lowest_of, lent_lowest};

use crate::check::lists::IndexList;
use crate::check::order::PASSED;
use crate::check::triangle::{counted_lowest, equal_pairs, indices_below};

// How many triangles are counted at once.
const BLOCK: usize = 64;

// Of the first `count` triangles. A block with an index out of range decides, since 18 is the lower.
pub fn triangles_lowest<L: IndexList>(list: L, count: usize, limit: u32) -> u8
    requires { 3 * count ≤ length (L.indices list) }
    ensures { result ≡ indices_lowest_of limit (take (3 * count) (L.indices list)) }
{
    let mut lowest = PASSED;
    for first in (0..count).step_by(BLOCK) {
        let end = first + BLOCK.min(count - first);
        lowest = lowest.min(block_lowest(list, first, end, limit));
        if lowest == 18 {
            return 18;
        }
    }
    lowest
}

// The same for a block, from its first triangle to its end: all of them are counted.
fn block_lowest<L: IndexList>(list: L, first: usize, end: usize, limit: u32) -> u8
    requires { (first ≤ end) × (end ≤ first + 64) × (3 * end ≤ length (L.indices list)) }
    ensures { result ≡ indices_lowest_of limit (take (3 * (end - first)) (drop (3 * first) (L.indices list))) }
{
    let mut inside: u32 = 0;
    let mut pairs: u32 = 0;
    for i in first..end {
        let t = list.triangle(i);
        inside += indices_below(t, limit);
        pairs += equal_pairs(t);
    }
    counted_lowest(inside, pairs, end - first)
}

// The rank of the first of checks 17, 18 and 27 that lent indices of `limit` vertices fail, or PASSED.
pub fn lent_indices_lowest(indices: &[u32], limit: u32) -> u8
    ensures { result ≡ lent_lowest limit indices.now }
{
    if indices.len() < 3 || indices.len() % 3 != 0 {
        return 17;
    }
    triangles_lowest(indices, indices.len() / 3, limit)
}
