// The first pass of the hall list call and of take in: it refuses, or says how many bytes the list has. Nothing is written before it has ended.
// Its two loops refuse where those that judge and write go on, so they are over pointers, not over what resolves. They stay two: what a turn refuses and adds
// differs, and one loop over a trait of it is longer.
ghost use Rattle.std.specs.Prelude.{◌≡◌, ◌<◌, ◌≤◌, ◌+◌, ◌*◌, ◌^◌, length, IfOk, IfSome, MatchResult};
ghost use Rattle.sections.specs.Address.{sections_of};
ghost use Rattle.halls.specs.Reading.{read_models};
ghost use Rattle.halls.specs.Inner.Measured.{ListMeasured, RefusedAs, header_or_empty, list_read};
ghost use Rattle.halls.specs.Inner.Measure.{length_at, measured_geometries, measured_model};
ghost use Rattle.halls.specs.Inner.Measure.{measured_models, model_at, read_entries};

use crate::answer::Refusal;
use crate::check::pass::MOST_GEOMETRIES;
use crate::read::entries::{Entries, Pointers};
use crate::read::limited::Limited;
use crate::read::pointers::list_bytes;
use crate::read::stored::ModelLists;
use crate::read::view::{geometry_view, view_length};
use sections::{PointerListHeader, ResReader};

// The bytes of what was read, and how many geometries it has.
#[derive(Clone, Copy, Default)]
pub struct Measured {
    pub length: u64,
    pub count: usize,
}

// A list of which the first pass refuses nothing: the pointers to its models, and how many bytes their records have.
#[derive(Clone, Copy)]
pub struct MeasuredList<'b, 'a> {
    pub limited: Limited<'b, 'a>,
    pub pointers: &'a [u8],
    pub length: u64,
}

// The list behind the header at `va`, by checks 1 to 6.
pub fn measure_list<'b, 'a>(
    reader: &'b ResReader<'a>,
    va: u64,
) -> Result<MeasuredList<'b, 'a>, Refusal>
    ensures { MatchResult result (ListMeasured (sections_of reader.now) va) (RefusedAs (list_read (sections_of reader.now) va)) }
{
    if !reader.within_limit() {
        return Err(Refusal::by(1));
    }
    let limited = Limited { reader };
    let header = header_at(reader, va);
    let count = u32::from(header.len());
    let pointers = list_bytes(reader, 8, count, header.pointer).ok_or(Refusal::by(2))?;
    let measured = measure_models(reader, Pointers::new(pointers))?;
    Ok(MeasuredList {
        limited,
        pointers,
        length: measured.length,
    })
}

// The header at an address; where it does not resolve, that of an empty list.
fn header_at(reader: &ResReader, va: u64) -> PointerListHeader
    ensures { result ≡ header_or_empty (sections_of reader.now) va }
{
    reader.read_pointer_list_header(va).unwrap_or_default()
}

// The geometries behind some pointers, of which `before` came earlier in the walk.
fn measure_geometries(
    reader: &ResReader,
    entries: Entries,
    before: usize,
) -> Result<Measured, Refusal>
    requires { before ≤ 16384 }
    ensures value { result ≡ measured_geometries (read_entries (sections_of reader.now) before entries.entry) }
    ensures bound { IfOk result (λ m. (m.«length» ≤ m.count * 2 ^ 49) × (before + m.count ≤ 16384)) }
{
    let mut total = Measured::default();
    for entry in entries {
        if entry.pointer == 0 {
            continue;
        }
        if MOST_GEOMETRIES <= before + total.count {
            return Err(Refusal::by(5));
        }
        total.length += length_at(reader, entry.shader, entry.pointer).ok_or(Refusal::by(6))?;
        total.count += 1;
    }
    Ok(total)
}

// The models behind some pointers, from the first of a walk on.
fn measure_models(reader: &ResReader, pointers: Pointers) -> Result<Measured, Refusal>
    requires { length pointers < 2 ^ 17 }
    ensures { result ≡ measured_models (read_models (sections_of reader.now) 0 pointers.entry) }
{
    let mut total = Measured::default();
    for pointer in pointers {
        if pointer == 0 {
            continue;
        }
        let model = measure_model(reader, pointer, total.count)?;
        total.length += model.length;
        total.count += model.count;
    }
    Ok(total)
}

// The model behind a pointer.
fn measure_model(reader: &ResReader, pointer: u64, before: usize) -> Result<Measured, Refusal>
    requires { before ≤ 16384 }
    ensures value { result ≡ measured_model (model_at (sections_of reader.now) before pointer) }
    ensures bound { IfOk result (λ m. (m.«length» ≤ m.count * 2 ^ 49 + 2 ^ 20) × (before + m.count ≤ 16384)) }
{
    let raw = reader.resolve(pointer, 0x30).ok_or(Refusal::by(3))?;
    let lists = ModelLists::of(reader, raw);
    let pointers = lists.pointers.ok_or(Refusal::by(4))?;
    let inner = measure_geometries(reader, Entries::new(pointers, lists.mapping), before)?;
    Ok(Measured {
        length: 12 + lists.mapping.len() as u64 + inner.length,
        count: inner.count,
    })
}

// The bytes of the geometry behind a pointer, if its block resolves.
fn length_at(reader: &ResReader, shader: u16, pointer: u64) -> Option<u64>
    ensures value { result ≡ length_at (sections_of reader.now) shader pointer }
    ensures bound { IfSome result (λ n. n < 2 ^ 49) }
{
    let raw = reader.resolve(pointer, 0x98)?;
    Some(view_length(geometry_view(reader, raw, shader)))
}
