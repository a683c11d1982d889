// Unified vertices word by word: one plain loop, compiled for each kind of lane, writes one word of a block of vertices.
#![tactic(auto, using(sections::proofs::LeLaws::field_in), unfolding(crate::specs::Inner::Lanes::lane_bytes))]

ghost use Rattle.std.specs.Prelude.{◌≡◌, ℕ, List, ◌+◌, ◌*◌, ◌≤◌, ◌<◌, length};
ghost use Rattle.sections.specs.Edit.{overwrite};
ghost use Rattle.sections.specs.Le.{bytes};
ghost use Rattle.vertices.specs.Unified.{bytes4_bytes};
ghost use Rattle.vertices.specs.Inner.Lanes.{lane_bytes, Reads, LaneReady, LaneWritten};
ghost use Rattle.vertices.specs.declared.lane.Lane.TheVariants.{Constant};

use crate::attribute::{bytes4_at, float_at, half_at, rgba8_at, snorm_at, unorm_at};
use crate::known::Stored;
use crate::lane::Lane;
use crate::values::{Bytes4, F32};
use crate::vertices::Vertices;

// Vertices that are written together, from `first` to `end`. A `Range` is no `Copy`, and each strip of the block has its own.
#[derive(Clone, Copy)]
pub struct Block {
    pub first: usize,
    pub end: usize,
}

// The word `word` of the vertices of a block.
#[derive(Clone, Copy)]
pub struct Strip {
    pub block: Block,
    pub word: usize,
}

// Words of a unified vertex.
pub const WORDS: usize = 21;

// Bytes of a unified vertex.
pub const SIZE: usize = 4 * WORDS;

// One strip, from vertices that begin at b each. A constant is written in the first block only: a later one begins as a copy of that.
pub fn write_strip(vertices: Vertices, lane: Lane, out: &mut [u8], strip: Strip)
    requires { LaneReady lane vertices.stride strip vertices.«data».now out.old }
    ensures { LaneWritten lane vertices.entry.stride vertices.entry.«data».now strip out.old out.new }
{
    let data = vertices.data;
    match lane {
        Lane::Constant(_) if 0 < strip.block.first => {}
        Lane::Constant(bits) => strip_of(vertices, lane, |_b| F32 { bits }, out, strip),
        Lane::Word(off) => strip_of(vertices, lane, |b| float_at(data, b + off), out, strip),
        Lane::Half(off) => strip_of(vertices, lane, |b| half_at(data, b + off), out, strip),
        Lane::Snorm(off) => strip_of(vertices, lane, |b| snorm_at(data, b + off), out, strip),
        Lane::Unorm(off) => strip_of(vertices, lane, |b| unorm_at(data, b + off), out, strip),
        Lane::Raw(off) => strip_of(vertices, lane, |b| bytes4_at(data, b + off), out, strip),
        Lane::Rgba8(kind, off) => strip_of(
            vertices,
            lane,
            |b| rgba8_at(data, b + off, kind),
            out,
            strip,
        ),
    }
}

// A loop of its own for each kind of lane: `word` gives the word of the vertex that begins at a place of the data. `lane` serves the contract alone, which says
// by it what that word is. It is no ghost argument: at a call the check finds such a one in the other arguments, and none of them names the lane.
fn strip_of<V: FourBytes, W: Fn(usize) -> V>(
    vertices: Vertices,
    lane: Lane,
    word: W,
    out: &mut [u8],
    strip: Strip,
)
    requires ready { LaneReady lane vertices.stride strip vertices.«data».now out.old }
    requires callable { (at : ℕ) → Reads lane at (length vertices.«data».now) → W.pre word at }
    requires words { (at : ℕ) (v : V) → W.post word at v → V.bytes v ≡ lane_bytes lane vertices.«data».now at }
    ensures { LaneWritten lane vertices.entry.stride vertices.entry.«data».now strip out.old out.new }
{
    for i in strip.block.first..strip.block.end {
        let at = i * SIZE + 4 * strip.word;
        word(vertices.base_of(i)).put(out, at);
    }
}

// A value as its four bytes. They go to a place of `out`, not into a part of it: what a strip leaves is said of all of `out`.
trait FourBytes {
    ghost bytes: { Self → List ℕ };

    fn put(self, out: &mut [u8], at: usize)
        requires { at + 4 ≤ length out.old }
        ensures { out.new ≡ overwrite out.old at (bytes self) };
}

impl FourBytes for F32 {
    ghost bytes = { λ v. bytes 4 v.bits };

    fn put(self, out: &mut [u8], at: usize) {
        self.bits.set(out, at);
    }
}

impl FourBytes for Bytes4 {
    ghost bytes = { λ v. bytes4_bytes v };

    fn put(self, out: &mut [u8], at: usize) {
        out[at..at + 4].copy_from_slice(&[self.a, self.b, self.c, self.d]);
    }
}
