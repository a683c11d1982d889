// What one record of a file asks: an input, the Rust's answer and the library's.
ghost use Rattle.std.specs.Prelude.{◌<◌};

use sections::{u8_le, u16_le, u32_le};
use std::{array, fmt};
use vertices::{
    f16_to_f32, f32_to_f16, f32_to_snorm8, f32_to_unorm8, snorm_colour8, snorm8_to_f32,
    unorm8_to_f32,
};

// What a file holds. A file without inputs has one record for each half or byte, in order.
#[derive(Clone, Copy)]
pub enum Kind {
    Halves,
    Neighbours,
    HalfColours,
    Floats,
    Colours,
    Snorm,
    Unorm,
}

#[derive(Clone, Copy)]
pub struct Case {
    pub input: u32,
    pub expected: u32,
    pub got: u32,
}

// The file's name, without its ending.
impl fmt::Display for Kind {
    fn fmt<W: fmt::Write>(&self, f: &mut fmt::Formatter<W>) -> fmt::Result {
        f.write_str(match self {
            Kind::Halves => "halves",
            Kind::Neighbours => "neighbours",
            Kind::HalfColours => "half_colours",
            Kind::Floats => "floats",
            Kind::Colours => "colours",
            Kind::Snorm => "snorm",
            Kind::Unorm => "unorm",
        })
    }
}

impl Kind {
    pub const ALL: [Kind; 7] = [
        Kind::Halves,
        Kind::Neighbours,
        Kind::HalfColours,
        Kind::Floats,
        Kind::Colours,
        Kind::Snorm,
        Kind::Unorm,
    ];

    // The file. A text of its own for each, so that none is made on the heap.
    pub fn path(self) -> &'static str {
        match self {
            Kind::Halves => "halves.bin",
            Kind::Neighbours => "neighbours.bin",
            Kind::HalfColours => "half_colours.bin",
            Kind::Floats => "floats.bin",
            Kind::Colours => "colours.bin",
            Kind::Snorm => "snorm.bin",
            Kind::Unorm => "unorm.bin",
        }
    }

    // The bytes of one record.
    pub fn width(self) -> usize
        ensures { 0 < result }
    {
        match self {
            Kind::Halves | Kind::Snorm | Kind::Unorm => 4,
            Kind::Neighbours => 2,
            Kind::HalfColours => 3,
            Kind::Floats => 6,
            Kind::Colours => 7,
        }
    }

    pub fn case(self, index: u64, record: &[u8]) -> Case {
        let half = (index % 65536) as u16;
        let byte = (index % 256) as u8;
        match self {
            Kind::Halves => widened(half.into(), record, f16_to_f32(half)),
            Kind::Neighbours => rounded(near(index), u16_le(record, 0)),
            Kind::HalfColours => coloured(f16_to_f32(half), three(record, 0)),
            Kind::Floats => rounded(u32_le(record, 0), u16_le(record, 4)),
            Kind::Colours => coloured(u32_le(record, 0), three(record, 4)),
            Kind::Snorm => widened(byte.into(), record, snorm8_to_f32(byte)),
            Kind::Unorm => widened(byte.into(), record, unorm8_to_f32(byte)),
        }
    }
}

// Of six float bits near a half: one below, at and one above its own, and the same around the middle of the way to the next half.
fn near(index: u64) -> u32 {
    let half = (index / 6 % 65536) as u16;
    let own = f16_to_f32(half);
    let next = f16_to_f32(half.wrapping_add(1));
    let middle = own / 2 + next / 2;
    match index % 6 {
        0 => own.wrapping_sub(1),
        1 => own,
        2 => own.wrapping_add(1),
        3 => middle.wrapping_sub(1),
        4 => middle,
        _ => middle.wrapping_add(1),
    }
}

// The three bytes that a float becomes, as one number: a colour, a snorm as colour, a snorm byte.
fn colours(bits: u32) -> u32 {
    u32::from_le_bytes([
        f32_to_unorm8(bits),
        snorm_colour8(bits),
        f32_to_snorm8(bits),
        0,
    ])
}

// The same of a record's three bytes.
fn three(record: &[u8], off: usize) -> u32
    requires { off < 8 }
{
    let [a, b, c]: [u8; 3] = array::from_fn(|i| u8_le(record, off + i));
    u32::from_le_bytes([a, b, c, 0])
}

fn widened(input: u32, record: &[u8], got: u32) -> Case {
    Case {
        input,
        expected: u32_le(record, 0),
        got,
    }
}

fn rounded(input: u32, expected: u16) -> Case {
    Case {
        input,
        expected: expected.into(),
        got: f32_to_f16(input).into(),
    }
}

fn coloured(input: u32, expected: u32) -> Case {
    Case {
        input,
        expected,
        got: colours(input),
    }
}
