// Normalised bytes and colours: a byte as a float and a float as a byte. A float is given and returned as its bits.
//
// Choices between floats stand here: `f32::min` and `f32::max` make a second comparison, for a NaN, 1.2 times the time in a loop, where floats to snorm (2.1 of
// the original's time, wanted 0.8) and snorm to floats (2.6 and more, wanted 1.1) are above their goals already. `f32::clamp` keeps a NaN and -0.0, which `cut`
// does not take.
ghost use Rattle.std.specs.Prelude.{◌≡◌, cond, ◌-◌, ◌≤◌, T, ltb};
ghost use Rattle.std.specs.Float.{binary32};
ghost use Rattle.std.specs.Float.Ieee.{lt, nan_bits, to_unsigned};
ghost use Rattle.vertices.specs.Normalised.{number, negative, at_least, snorm8_to_f32, unorm8_to_f32, f32_to_snorm8, colour_byte, f32_to_unorm8, snorm_colour8};
ghost use Rattle.vertices.specs.Inner.Small.{plain};

use crate::values::{INFINITY, SIGN};

// Whether the bits are a NaN's, at which `f32::from_bits` is not defined.
fn is_nan(bits: u32) -> bool
    ensures { result ≡ nan_bits binary32 bits }
{
    INFINITY < bits % SIGN
}

// A signed normalised byte: -127 to 127 as -1.0 to 1.0, and -128 as -1.0 too. Of the numbers -128 to 127 the product by 31 is exact, and its product
// by the float nearest to 1 / 3937 is the quotient by 127, rounded.
pub fn snorm8_to_f32(value: u8) -> u32
    ensures { result ≡ snorm8_to_f32 value }
{
    let signed = f32::from(value.cast_signed());
    f32::to_bits(at_least_minus_one(signed * 31.0 * f32::from_bits(0x3985_2B5F)))
}

fn at_least_minus_one(x: f32) -> f32
    ensures { result ≡ at_least (negative 1) x }
{
    if x < -1.0 {
        return -1.0;
    }
    x
}

// An unsigned normalised byte: 0 to 255 as 0.0 to 1.0.
pub fn unorm8_to_f32(value: u8) -> u32
    ensures { result ≡ unorm8_to_f32 value }
{
    f32::to_bits(f32::from(value) / 255.0)
}

// `value` without its fraction: a sum with 2^23 has the nearest whole number in its lowest bits, one too great where it is above `value`.
fn cut(value: f32) -> u32
    requires { T (plain value) × T (lt value (number 256)) }
    ensures { result ≡ to_unsigned 8 value }
{
    let sum = value + 8388608.0;
    let nearest = f32::to_bits(sum) - 0x4B00_0000;
    if value < sum - 8388608.0 {
        return nearest - 1;
    }
    nearest
}

// -1.0 to 1.0 as the signed bytes -127 to 127, cut towards zero. What lies outside counts as the nearer end, and a NaN gives 0.
pub fn f32_to_snorm8(bits: u32) -> u8
    ensures { result ≡ f32_to_snorm8 bits }
{
    let size = cut(at_most(127.0, f32::from_bits(or_zero(bits % SIGN)) * 127.0));
    (twos_complement(bits, size) % 256) as u8
}

// Not by `wrapping_neg` of the byte: small runs of usual floats then take 4.5 times the time of the original, by this 2.2, and 0.8 is wanted.
fn twos_complement(bits: u32, size: u32) -> u32
    requires { size ≤ 256 }
    ensures { result ≡ cond (ltb bits 2147483648) size (256 - size) }
{
    if bits < SIGN {
        return size;
    }
    256 - size
}

// Bits below the sign, and 0 for a NaN's, at which `f32::from_bits` is not defined.
fn or_zero(rest: u32) -> u32
    ensures { result ≡ cond (ltb 2139095040 rest) 0 rest }
{
    if INFINITY < rest {
        return 0;
    }
    rest
}

fn at_most(most: f32, x: f32) -> f32
    ensures { result ≡ cond (lt most x) most x }
{
    if most < x {
        return most;
    }
    x
}

// A NaN gives 0.
fn from_zero(x: f32) -> f32
    ensures { result ≡ cond (lt (number 0) x) x (number 0) }
{
    if 0.0 < x {
        return x;
    }
    0.0
}

// 0.0 to 1.0 as 0 to 255, cut towards zero. What lies outside counts as the nearer end. A NaN is not above 0 and gives 0.
fn colour_byte(value: f32) -> u8
    ensures { result ≡ colour_byte value }
{
    cut(at_most(1.0, from_zero(value)) * 255.0) as u8
}

// A float as a byte of a colour.
pub fn f32_to_unorm8(bits: u32) -> u8
    ensures { result ≡ f32_to_unorm8 bits }
{
    if is_nan(bits) {
        return 0;
    }
    colour_byte(f32::from_bits(bits))
}

// A signed normalised float as a byte of a colour: -1.0 to 1.0 becomes 0.0 to 1.0 first.
pub fn snorm_colour8(bits: u32) -> u8
    ensures { result ≡ snorm_colour8 bits }
{
    if is_nan(bits) {
        return 0;
    }
    colour_byte(f32::from_bits(bits) * 0.5 + 0.5)
}
