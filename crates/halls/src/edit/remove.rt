// A model or a geometry taken out of a hall: what stands behind it moves down, and the bytes that this frees become zero.
ghost use Rattle.std.specs.Prelude.{◌≡◌, ◌++◌, ◌≤◌, length, take, drop};
ghost use Rattle.halls.specs.Calls.{remove_model, remove_geometry};
ghost use Rattle.halls.specs.Step.{rewritten, Stepped};

use crate::answer::Refusal;
use crate::check::check::survey_first;
use crate::check::find::{find_placed, seek};
use crate::check::sought::GeometryId;
use crate::format::kind::RecordKind;
use sections::{copy_within, put_u32_le, u32_le, zero};

// Takes a model with its geometries out of the hall of the first n bytes. Removing keeps every check of a hall, so the result is not looked at.
pub fn remove_model(hall: &mut [u8], n: usize, model: u64) -> Result<u64, Refusal>
    ensures { Stepped (remove_model model) hall.old n result hall.new }
{
    let found = survey_first(hall, n, GeometryId::end_of(model))?;
    let nearest = found.nearest;
    let place = nearest.place_of(model).ok_or(Refusal::by(21))?;
    let end = seek(&hall[..n], nearest.at, RecordKind::Model, 0).unwrap_or(n);
    close_gap(hall, n, place, end);
    Ok((n - (end - place)) as u64)
}

// Takes a geometry out of the hall of the first n bytes. Its entry of the model's mapping goes too: what stands between moves down by 2 bytes, what stands
// behind by both parts.
pub fn remove_geometry(hall: &mut [u8], n: usize, removed: GeometryId) -> Result<u64, Refusal>
    ensures { Stepped (remove_geometry removed.model removed.index) hall.old n result hall.new }
{
    let found = find_placed(hall, n, removed)?;
    let places = found.places;
    let at = places.geometry;
    let entry = places.model + 12 + 2 * removed.index as usize;
    let end = places.indices + 6 + u32_le(hall, places.indices) as usize;
    let length = u32_le(hall, places.model);
    put_u32_le(hall, places.model, length - 2);
    copy_within(hall, entry + 2, entry, at - (entry + 2));
    close_gap(hall, n, at - 2, end);
    Ok((n - (end - at) - 2) as u64)
}

// The bytes from `at` to `end` taken out of the first n.
pub fn close_gap(hall: &mut [u8], n: usize, at: usize, end: usize)
    requires { (at ≤ end) × (end ≤ n) × (n ≤ length hall.old) }
    ensures { hall.new ≡ rewritten hall.old n (take at (take n hall.old) ++ drop end (take n hall.old)) }
{
    copy_within(hall, end, at, n - end);
    zero(hall, n - (end - at), end - at);
}
