// The hall check: whether a list is a hall (document 01, checks 11 to 19; document 02, check 27).
ghost use Rattle.std.specs.Prelude.{◌≡◌};
ghost use Rattle.halls.specs.Checks.{hall_verdict};
ghost use Rattle.halls.specs.HallSize.{hall_size};
ghost use Rattle.halls.specs.Verdict.{verdict_result};
ghost use Rattle.halls.specs.Inner.Walk.{ExaminedFirst, SurveyedFirst};

use crate::answer::Refusal;
use crate::check::pass::{Findings, Summary, survey};
use crate::check::sought::GeometryId;

// Whether the first n bytes of `hall` are a hall; if not, the first check, in the order in which they are asked, that fails anywhere in it.
pub fn hall_check(hall: &[u8], n: usize) -> Result<(), Refusal>
    ensures { result ≡ verdict_result (hall_verdict hall.now n) }
{
    examine_first(hall, n)?;
    Ok(())
}

// Of a sound hall its models, and the bytes of its image.
#[derive(Clone, Copy, Debug, PartialEq, Eq)]
pub struct HallSize {
    pub models: usize,
    pub bytes: usize,
}

// The size of the hall in the first n bytes of `hall`: header, model pointers and what the models take.
pub fn hall_size(hall: &[u8], n: usize) -> Result<HallSize, Refusal>
    ensures { result ≡ hall_size hall.now n }
{
    let found = examine_first(hall, n)?;
    Ok(HallSize {
        models: found.models,
        bytes: 16 * (1 + found.models.div_ceil(2) + found.units),
    })
}

// What the first n bytes of `hall` come to; the refusal where they are not a sound hall.
pub fn examine_first(hall: &[u8], n: usize) -> Result<Summary, Refusal>
    ensures { ExaminedFirst hall.now n result }
{
    // Whichever geometry is sought: only the counts are kept.
    let found = survey_first(hall, n, GeometryId::default())?;
    Ok(found.summary)
}

// The same, and the place of the pass that is nearest to the geometry that is sought.
pub fn survey_first(hall: &[u8], n: usize, sought: GeometryId) -> Result<Findings, Refusal>
    ensures { SurveyedFirst hall.now n sought.model sought.index result }
{
    if hall.len() < n {
        return Err(Refusal::by(11));
    }
    survey(&hall[..n], sought)
}
