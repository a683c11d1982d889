// One pass over a hall's list: a record that is not a hall's ends it, otherwise the lowest rank of a check that fails is carried.
ghost use Rattle.std.specs.Prelude.{◌≡◌, Some, ◌+◌, ◌*◌, ◌-◌, ◌<◌, ◌≤◌, [], length, drop, MatchOption};
ghost use Rattle.halls.specs.Inner.Order.{failing};
ghost use Rattle.halls.specs.Inner.Walk.{front_of, Walked, Turned, Surveyed, start_tally, mark_of, limits_lowest, size_lowest, entries_in, leads, is_empty};
ghost use Rattle.halls.specs.Inner.Seeking.{nearer_mark};
ghost use Rattle.halls.specs.declared.format.front.Front.TheVariants.{Model, Geometry};

use crate::answer::Refusal;
use crate::check::geometry::geometry_lowest;
use crate::check::order::{PASSED, TOO_LARGE, failing, verdict_of};
use crate::check::sought::GeometryId;
use crate::format::front::{Front, GeometryShape, front_of, model_units};
use sections::u16_le;

// Models and geometries, and their part of the image in units of 16 bytes, which leaves header and model pointers out.
#[derive(Clone, Copy, Default)]
pub struct Summary {
    pub models: usize,
    pub geometries: usize,
    pub units: usize,
}

// What the records before `at` come to. `lowest` is the rank of the first check that failed, or PASSED. The last model's record begins at `model`, and
// `first` geometries stand before it. `left` are the entries of its mapping that no geometry has answered yet, of two bytes each.
// Before the first model both numbers are 0 and nothing is left, so that what a walk knows holds of them as of any: an Option of the last model would give each
// of its laws two cases.
#[derive(Clone, Copy)]
pub struct Tally<'a> {
    pub at: usize,
    pub lowest: u8,
    pub summary: Summary,
    pub model: usize,
    pub first: usize,
    pub left: &'a [u8],
}

// The model or geometry at t's place passed; None at a record that is not a hall's. What a walk knows of its tally, `Walked`, is asked here and of the two
// functions below, and is no ghost field of the tally: what such a field cites may not speak of its struct.
fn next_turn<'a>(list: &'a [u8], t: Tally<'a>) -> Option<Tally<'a>>
    requires { (Walked list.now t) × (t.at < length list.now) }
    ensures { Turned list.now t.entry result }
{
    match front_of(&list[t.at..])? {
        Front::Model(entries) => Some(pass_model(list, t, entries)),
        Front::Geometry(shape) => pass_geometry(list, t, shape),
    }
}

// Its entries are those that no geometry has answered yet.
fn pass_model<'a>(list: &'a [u8], t: Tally<'a>, entries: usize) -> Tally<'a>
    requires { (Walked list.now t) × (Some (Model entries) ≡ front_of (drop t.at list.now)) × (t.at + 12 + 2 * entries ≤ length list.now) }
    ensures { Turned list.now t.entry (Some result) }
{
    let lowest = t.lowest.min(unanswered(t.left));
    let mapping = t.at + 12;
    let at = mapping + 2 * entries;
    Tally {
        at,
        lowest,
        summary: Summary {
            models: t.summary.models + 1,
            units: t.summary.units + model_units(entries),
            ..t.summary
        },
        model: t.at,
        first: t.summary.geometries,
        left: &list[mapping..at],
    }
}

// A geometry before any model is not a hall's.
fn pass_geometry<'a>(list: &'a [u8], t: Tally<'a>, shape: GeometryShape) -> Option<Tally<'a>>
    requires { (Walked list.now t) × (Some (Geometry shape) ≡ front_of (drop t.at list.now)) × (t.at + 65 + shape.content + 4 * shape.held ≤ length list.now) }
    ensures { Turned list.now t.entry result }
{
    if t.summary.models == 0 {
        return None;
    }
    let at = t.at;
    let found = geometry_lowest(&list[at..], shape);
    let shader = u16_le(list, at + 6);
    let answer = answered(t.left, shader);
    let lowest = t.lowest.min(answer.min(found));
    Some(Tally {
        at: at + shape.record_bytes(),
        lowest,
        summary: Summary {
            geometries: t.summary.geometries + 1,
            units: t.summary.units + shape.units(),
            ..t.summary
        },
        left: &t.left[t.left.len().min(2)..],
        ..t
    })
}

// Check 12 of a geometry: the entry that is next in its model's mapping is its shader id.
fn answered(left: &[u8], shader: u16) -> u8
    ensures { result ≡ failing 12 (leads shader (entries_in left.now)) }
{
    failing(12, 2 <= left.len() && u16_le(left, 0) == shader)
}

// Check 12 of a model whose geometries have all come: no entry is left.
fn unanswered(left: &[u8]) -> u8
    ensures { result ≡ failing 12 (is_empty (entries_in left.now)) }
{
    failing(12, left.len() < 2)
}

// A place that a pass has reached, behind `own` geometries of the last of `models` models, whose record begins at `model`.
#[derive(Clone, Copy)]
pub struct Mark {
    pub at: usize,
    pub models: usize,
    pub model: usize,
    pub own: usize,
}

impl Mark {
    // The place of a model's record, of the mark that is nearest to it; None where there is no such model.
    pub fn place_of(self, model: u64) -> Option<usize>
        ensures { MatchOption result (self.models ≤ model) (λ place. (model < self.models) × (place ≡ self.model)) }
    {
        (model < self.models as u64).then_some(self.model)
    }
}

// What a whole list comes to, and the place of its pass that is nearest to the geometry that is sought.
#[derive(Clone, Copy)]
pub struct Findings {
    pub summary: Summary,
    pub nearest: Mark,
}

// The only loop that takes turns: with a second one the compiler no longer makes `next_turn` part of it, and the check takes nearly twice the time, where
// 1.06 of it is the most that docs/PERFORMANCE.md allows.
pub fn survey(list: &[u8], sought: GeometryId) -> Result<Findings, Refusal>
    ensures { Surveyed list.now sought.model sought.index result }
{
    let mut t = start();
    let mut nearest = mark_of(t);
    while t.at < list.len() {
        let Some(u) = next_turn(list, t) else {
            return Err(Refusal::by(11));
        };
        nearest = nearer(nearest, mark_of(u), sought);
        t = u;
    }
    let lowest = t.lowest.min(unanswered(t.left));
    verdict_of(lowest.min(limits_lowest(t.summary)))?;
    Ok(Findings {
        summary: t.summary,
        nearest,
    })
}

// The later of two places, unless it is behind the geometry of that number of its model, or behind the model that is sought.
fn nearer(a: Mark, b: Mark, sought: GeometryId) -> Mark
    requires { 0 < b.models }
    ensures { result ≡ nearer_mark a b sought.model sought.index }
{
    if sought.index < b.own as u64 || sought.model < b.models as u64 - 1 {
        return a;
    }
    b
}

fn mark_of(t: Tally<'_>) -> Mark
    requires { t.first ≤ t.summary.geometries }
    ensures { result ≡ mark_of t.entry }
{
    Mark {
        at: t.at,
        models: t.summary.models,
        model: t.model,
        own: t.summary.geometries - t.first,
    }
}

fn start() -> Tally<'static>
    ensures { (result ≡ start_tally result.left) × (result.left.now ≡ []) }
{
    Tally {
        at: 0,
        lowest: PASSED,
        summary: Summary::default(),
        model: 0,
        first: 0,
        left: &[],
    }
}

// The most models and geometries of a hall (check 13), and the most units of its image (check 19).
const MOST_MODELS: usize = 256;

pub const MOST_GEOMETRIES: usize = 16384;

const MOST_UNITS: usize = 4_194_304;

// Checks 13 and 19.
pub fn limits_lowest(summary: Summary) -> u8
    ensures { result ≡ limits_lowest summary.models summary.geometries summary.units }
{
    if MOST_MODELS < summary.models || MOST_GEOMETRIES < summary.geometries {
        return 13;
    }
    size_lowest(summary.models, summary.units)
}

// Check 19.
pub fn size_lowest(models: usize, parts: usize) -> u8
    requires { models ≤ 256 }
    ensures { result ≡ size_lowest models parts }
{
    failing(TOO_LARGE, parts <= MOST_UNITS - 1 - models.div_ceil(2))
}
