// Where the records of a hall's list begin.
ghost use Rattle.std.specs.Prelude.{◌≡◌, ◌≤◌, length};
ghost use Rattle.halls.specs.Inner.HallRecords.{hall_records};
ghost use Rattle.halls.specs.Parsing.{models_in};
ghost use Rattle.halls.specs.Places.{geometry_place, model_found, geometry_found};
ghost use Rattle.halls.specs.Records.{records};
ghost use Rattle.halls.specs.Inner.Kinds.{kind_number};
ghost use Rattle.halls.specs.Inner.Seeking.{sought as seeking, Nearest};
ghost use Rattle.halls.specs.Inner.Walk.{PlacedFirst};

use crate::answer::Refusal;
use crate::check::check::survey_first;
use crate::check::pass::{Mark, Summary};
use crate::check::sought::GeometryId;
use crate::format::kind::RecordKind;
use crate::format::walk::records_from;
use sections::u32_le;

// The places of a model's record and of the four records of one of its geometries.
#[derive(Clone, Copy, Debug, PartialEq, Eq)]
pub struct GeometryPlace {
    pub model: usize,
    pub geometry: usize,
    pub declaration: usize,
    pub vertices: usize,
    pub indices: usize,
}

// The place of the m-th model's record in the first n bytes of `hall`; none also where they are not a sound hall.
pub fn find_model(hall: &[u8], n: usize, model: u64) -> Option<usize>
    ensures { result ≡ model_found hall.now n model }
{
    let found = survey_first(hall, n, GeometryId::first_of(model)).ok()?;
    found.nearest.place_of(model)
}

// The places of a geometry in the first n bytes of `hall`; none also where they are not a sound hall.
pub fn find_geometry(hall: &[u8], n: usize, sought: GeometryId) -> Option<GeometryPlace>
    ensures { result ≡ geometry_found hall.now n sought.model sought.index }
{
    let found = find_placed(hall, n, sought).ok()?;
    Some(found.places)
}

// A geometry's places in a sound hall, and what that hall comes to.
#[derive(Clone, Copy)]
pub struct PlacedGeometry {
    pub places: GeometryPlace,
    pub summary: Summary,
}

// In the first n bytes of `hall`; check 21 where a sound hall does not have the geometry.
pub fn find_placed(hall: &[u8], n: usize, sought: GeometryId) -> Result<PlacedGeometry, Refusal>
    ensures { PlacedFirst hall.now n sought.model sought.index result }
{
    let found = survey_first(hall, n, sought)?;
    let places = geometry_at(&hall[..n], found.nearest, sought).ok_or(Refusal::by(21))?;
    Ok(PlacedGeometry {
        places,
        summary: found.summary,
    })
}

// The places of a geometry in a list whose records are a hall's and whose pass came nearest to it at a place.
fn geometry_at(list: &[u8], nearest: Mark, sought: GeometryId) -> Option<GeometryPlace>
    requires { (hall_records (models_in (records list.now)) ≡ records list.now) × (Nearest list.now sought.model sought.index nearest) }
    ensures { result ≡ geometry_place (models_in (records list.now)) sought.model sought.index }
{
    let model = nearest.place_of(sought.model)?;
    let skip = sought.index - nearest.own as u64;
    let geometry = seek(list, nearest.at, RecordKind::Geometry, skip)?;
    let vertices = geometry + 42;
    let indices = vertices + 6 + u32_le(list, vertices) as usize;
    Some(GeometryPlace {
        model,
        geometry,
        declaration: geometry + 20,
        vertices,
        indices,
    })
}

// From the record on that begins at `at`: the place of the record of this kind with `skip` of its kind before it. A model's record ends the search
// for another kind. What is skipped is counted beside the `for`: of `take_while`, `filter` and `nth` the check knows whole runs of their closures only, and
// which record they give was not proved.
pub fn seek(list: &[u8], at: usize, kind: RecordKind, skip: u64) -> Option<usize>
    requires { at ≤ length list.now }
    ensures { result ≡ seeking list.now at (kind_number kind) skip }
{
    let mut left = skip;
    for record in records_from(list, at) {
        let found = RecordKind::of(record.kind);
        if found == Some(kind) {
            if left == 0 {
                return Some(record.at);
            }
            left -= 1;
        } else if found == Some(RecordKind::Model) {
            return None;
        }
    }
    None
}
