// What a call on a list or a hall answers where it refuses.
ghost use Rattle.std.specs.Prelude.{◌≡◌, ◌≤◌, ◌<◌, MatchResult};

use std::{error, fmt};

// The number of the check that failed: a number, since the papers number the checks and C is told it. `needed` is how long the lent buffer would
// have to be where its length was the reason, else 0: no Option, since C is told this number too.
#[derive(Clone, Copy, Debug, PartialEq, Eq)]
pub struct Refusal {
    pub check: u8,
    pub needed: u64,
}

impl Refusal {
    // For a reason other than a buffer's length.
    pub(crate) fn by(check: u8) -> Refusal
        ensures { result ≡ record { check = check; needed = 0 } }
    {
        Refusal { check, needed: 0 }
    }

    // What the check finds wrong.
    fn text(self) -> &'static str {
        match self.check {
            1 => "a section is too long",
            2 => "the list of model pointers is not inside its section",
            3 => "a model is not inside its section",
            4 => "a model's list of geometry pointers is not inside its section",
            5 => "there are too many geometries",
            6 => "a geometry is not inside its section",
            7 => "the buffer for the list is too short",
            8 => "there is no such vertex",
            9 => "a vertex is not inside its data",
            10 => "the output is too short",
            11 => "the list is not made of whole records in order",
            12 => "a model's mapping is not the list of its geometries' shader ids",
            13 => "there are too many models or geometries",
            14 => "strides or layout disagree",
            15 => "a declaration does not fit its vertices",
            16 => "vertex counts disagree",
            17 => "index counts disagree",
            18 => "an index names no vertex",
            19 => "the hall is too large to be saved",
            20 => "the buffer for the image is too short",
            21 => "there is no such model, geometry or vertex",
            22 => "the vertices have no such attribute",
            23 => "the value has not the shape of the attribute's type",
            24 => "the buffer for the hall is too short",
            27 => "a triangle is degenerate",
            _ => "no check has this number",
        }
    }
}

impl fmt::Display for Refusal {
    fn fmt<W: fmt::Write>(&self, f: &mut fmt::Formatter<W>) -> fmt::Result {
        write!(f, "check {}: {}", self.check, self.text())
    }
}

impl error::Error for Refusal {}

// Check `check`: a lent buffer is as long as is needed.
pub fn room(check: u8, len: usize, needed: u64) -> Result<(), Refusal>
    ensures { MatchResult result (λ _. needed ≤ len) (λ e. (len < needed) × (e ≡ record { check = check; needed = needed })) }
{
    if (len as u64) < needed {
        return Err(Refusal { check, needed });
    }
    Ok(())
}
