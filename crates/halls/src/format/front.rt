// What stands at the front of a hall's bytes. Offsets in a geometry's four records are counted from its first one, here, in the checks, in the edits and in the
// crate of images: they are document 01's, and stand as numbers beside what is read or put there, where a name would say it twice.
ghost use Rattle.std.specs.Prelude.{◌≡◌, ◌+◌, ◌*◌, ◌-◌, ◌/◌, ◌≤◌, ◌<◌, ◌^◌};
ghost use Rattle.halls.specs.Fronts.{Shaped, content_at, entries_at};
ghost use Rattle.halls.specs.Inner.Judging.{has_record, has_geometry};
ghost use Rattle.halls.specs.Inner.Kinds.{kind_number};
ghost use Rattle.halls.specs.Inner.Walk.{front_of, model_units};

use crate::format::kind::RecordKind;
use sections::{ends_inside, u16_le, u32_le};

// Vertex bytes, and indices held.
#[derive(Clone, Copy)]
pub struct GeometryShape {
    pub content: usize,
    pub held: usize,
}

impl GeometryShape {
    // Its part of the image in units of 16 bytes: blocks and declaration, vertex bytes, two-byte indices.
    pub fn units(self) -> usize
        ensures { result ≡ 25 + (self.content + 15) / 16 + (2 * self.held + 15) / 16 }
    {
        25 + self.content.div_ceil(16) + self.held.div_ceil(8)
    }

    // The bytes of its four records. For this crate alone: what another crate calls asks nothing of its caller.
    pub(crate) fn record_bytes(self) -> usize
        requires { 65 + self.content + 4 * self.held < 2 ^ 64 }
        ensures { result ≡ 65 + self.content + 4 * self.held }
    {
        65 + self.content + 4 * self.held
    }
}

// The part of the image of a model's record with so many entries, in units of 16 bytes: its block, and for each entry a pointer and a two-byte number.
// Not by `div_ceil`, which is a test more for each: the check passes a model without geometries in 80 instructions, by `div_ceil` in 87.
pub fn model_units(entries: usize) -> usize
    requires { entries < 2 ^ 63 }
    ensures { result ≡ model_units entries }
{
    3 + (entries + 1) / 2 + (entries + 7) / 8
}

// A model's record with the entries of its mapping, or a geometry's four records.
#[derive(Clone, Copy)]
pub enum Front {
    Model(usize),
    Geometry(GeometryShape),
}

// Each record is exact in length by its own numbers. None where neither stands there.
pub fn front_of(list: &[u8]) -> Option<Front>
    ensures { result ≡ front_of list.now }
{
    let entries = entries_of(list);
    if has_record(list, 0, RecordKind::Model, 6 + 2 * entries) {
        return Some(Front::Model(entries));
    }
    let shape = shape_of(list);
    if has_geometry(list, shape) {
        return Some(Front::Geometry(shape));
    }
    None
}

// The entries of the mapping of the model at the front.
pub fn entries_of(front: &[u8]) -> usize
    ensures { (result ≡ entries_at front.now) × (result ≤ 2 ^ 31) }
{
    u32_le(front, 0).saturating_sub(6) as usize / 2
}

// Of the geometry at the front.
pub fn shape_of(front: &[u8]) -> GeometryShape
    ensures { Shaped front.now result }
{
    let content = content_of(front);
    GeometryShape {
        content,
        held: u32_le(front, 55 + content).saturating_sub(4) as usize / 4,
    }
}

// Its vertex bytes: its own count × its own stride.
fn content_of(front: &[u8]) -> usize
    ensures { (result ≡ content_at front.now) × (result ≤ 2 ^ 48) }
{
    u32_le(front, 51) as usize * usize::from(u16_le(front, 49))
}

// A geometry's four records stand at the front, one behind the other.
fn has_geometry(list: &[u8], shape: GeometryShape) -> bool
    requires { Shaped list.now shape }
    ensures { result ≡ has_geometry list.now }
{
    let indices = 55 + shape.content;
    has_record(list, 0, RecordKind::Geometry, 14)
        && has_record(list, 20, RecordKind::Declaration, 16)
        && has_record(list, 42, RecordKind::Vertices, 7 + shape.content)
        && has_record(list, indices, RecordKind::Indices, 4 + 4 * shape.held)
}

// At this place a record of this kind begins, with a body of n bytes. The kind is compared as a number: which kind stands there instead is not asked.
fn has_record(list: &[u8], at: usize, kind: RecordKind, n: usize) -> bool
    requires { n ≤ 2 ^ 60 }
    ensures { result ≡ has_record list.now at (kind_number kind) n }
{
    ends_inside(at, 6 + n, list.len())
        && u32_le(list, at) as usize == n
        && u16_le(list, at + 4) == kind.number()
}
