// What one triangle adds to two counts, its indices below a limit and its pairs of equal indices; and what these counts of some triangles say of
// checks 18 and 27.
ghost use Rattle.std.specs.Prelude.{◌≡◌, ◌≤◌};
ghost use Rattle.halls.specs.Inner.Counting.{indices_below, equal_pairs, counted_lowest};

use crate::check::order::PASSED;

// Three indices that follow each other.
#[derive(Clone, Copy)]
pub struct Triangle {
    pub a: u32,
    pub b: u32,
    pub c: u32,
}

pub fn indices_below(t: Triangle, limit: u32) -> u32
    ensures { (result ≡ indices_below limit t) × (result ≤ 3) }
{
    u32::from(t.a < limit) + u32::from(t.b < limit) + u32::from(t.c < limit)
}

pub fn equal_pairs(t: Triangle) -> u32
    ensures { (result ≡ equal_pairs t) × (result ≤ 3) }
{
    u32::from(t.a == t.b) + u32::from(t.b == t.c) + u32::from(t.a == t.c)
}

// `count` triangles with `inside` indices below the limit and `pairs` of equal ones.
pub fn counted_lowest(inside: u32, pairs: u32, count: usize) -> u8
    requires { count ≤ 64 }
    ensures { result ≡ counted_lowest inside pairs count }
{
    if inside as usize != 3 * count {
        return 18;
    }
    if pairs != 0 {
        return 27;
    }
    PASSED
}
