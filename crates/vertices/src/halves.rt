// Halves (IEEE 754's binary16) to floats and back, both as their bits, so that a NaN's bits are kept. Either way is sums and choices,
// the same for all bits, without a jump between cases.
ghost use Rattle.std.specs.Prelude.{◌≡◌, cond, ◌%◌, ◌<◌, ltb};
ghost use Rattle.std.specs.Float.Ieee.{lt};
ghost use Rattle.vertices.specs.Half.{decoded, encoded, f16_to_f32, f32_to_f16};
ghost use Rattle.vertices.specs.Normalised.{number};
ghost use Rattle.vertices.specs.Inner.Small.{small};

use crate::values::{INFINITY, SIGN};

// The bits of 65,536, from which on a float is an infinite half.
pub const INFINITE: u32 = 0x4780_0000;

// The float's bits that stand for the same number as the half's, for the same infinity, or for a NaN with the same sign and payload.
pub fn f16_to_f32(value: u16) -> u32
    ensures { result ≡ f16_to_f32 value }
{
    let bits = u32::from(value);
    bits / 0x8000 * SIGN + float_below_sign(bits % 0x8000)
}

// The bits below the sign move to their places in a float, whose exponent's field is 112 more. Of a subnormal half that makes 2^-15 and half
// of the half's size: twice that, less 2^-14, is the half. Infinity and NaN lack 112 more.
fn float_below_sign(rest: u32) -> u32
    requires { rest < 32768 }
    ensures { result ≡ decoded rest }
{
    let moved = f32::from_bits(rest * 0x2000 + 0x3800_0000);
    f32::to_bits(moved + not_above_zero(moved - 0.00006103515625)) + all_ones(rest)
}

// `f32::min` makes a second comparison, for a NaN: halves to floats then take 1.18 times the time, and at 1.10 to 1.43 of the original's they are above the
// 0.45 that docs/PERFORMANCE.md wants already.
fn not_above_zero(x: f32) -> f32
    ensures { result ≡ cond (lt x (number 0)) x (number 0) }
{
    if x < 0.0 {
        return x;
    }
    0.0
}

// What is added where the exponent's field is all ones.
fn all_ones(rest: u32) -> u32
    ensures { result ≡ cond (ltb rest 31744) 0 939524096 }
{
    if 0x7C00 <= rest {
        return 0x3800_0000;
    }
    0
}

// The bits of the half nearest to a float, at a tie the even one. A NaN keeps its sign and its upper ten fraction bits and is made quiet.
pub fn f32_to_f16(bits: u32) -> u16
    ensures { result ≡ f32_to_f16 bits }
{
    with_sign(bits, half_below_sign(bits % SIGN))
}

// The same for a float below 65,536 in size.
pub fn small_f32_to_f16(bits: u32) -> u16
    requires { small bits }
    ensures { result ≡ f32_to_f16 bits }
{
    with_sign(bits, half_of_small(bits % SIGN))
}

// The sign of a float before the half of what is below it.
fn with_sign(bits: u32, rest: u32) -> u16
    requires { rest ≡ encoded (bits % 2147483648) }
    ensures { result ≡ f32_to_f16 bits }
{
    (bits / SIGN * 0x8000 + rest) as u16
}

fn half_below_sign(rest: u32) -> u32
    ensures { result ≡ encoded rest }
{
    if INFINITY < rest {
        // NaN.
        return 0x7E00 + rest / 0x2000 % 0x200;
    }
    if INFINITE <= rest {
        // 65,536 and above, and infinity.
        return 0x7C00;
    }
    half_of_small(rest)
}

fn half_of_small(rest: u32) -> u32
    requires { rest < 1199570944 }
    ensures { result ≡ encoded rest }
{
    if rest < 0x3880_0000 {
        // Below 2^-14: a whole multiple of 2^-24, the last place of a sum with 0.5, which rounds it.
        return f32::to_bits(f32::from_bits(rest) + 0.5) - 0x3F00_0000;
    }
    // A normal half, whose exponent's field is 112 less: to the nearest, at a tie to the even one. A carry moves into the field.
    let above = rest - 0x3800_0000;
    (above + 0xFFF + above / 0x2000 % 2) / 0x2000
}
