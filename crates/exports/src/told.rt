// The libraries' answers as a number and a length.
ghost use Rattle.std.specs.Prelude.{◌≡◌};
ghost use Rattle.exports.specs.Attributes.{attribute_refusal};
ghost use Rattle.exports.specs.Told.{check_number, run_length, run_number, run_refusal, told_length, told_number};
ghost use Rattle.exports.specs.Unify.{unify_refusal};

use halls::Refusal;
use vertices::{AttributeError, NeedsBytes, UnifyError};

// A library's error, as the number of the check that failed, and the bytes that an output which is too short would have to have. A trait of its own for what
// `Into<Refusal>` says: `From` cannot be implemented here, since the errors and `Refusal` are of other crates.
pub trait Refused: Copy {
    ghost use Rattle.halls.specs.declared.answer.Refusal.{Refusal};

    ghost refusal: { Self → Refusal };

    fn refusal(self) -> Refusal
        ensures { result ≡ refusal self };
}

impl Refused for Refusal {
    ghost refusal = { λ r. r };

    fn refusal(self) -> Refusal {
        self
    }
}

impl Refused for AttributeError {
    ghost refusal = { attribute_refusal };

    fn refusal(self) -> Refusal {
        Refusal {
            check: self.check(),
            needed: 0,
        }
    }
}

impl Refused for NeedsBytes {
    ghost refusal = { run_refusal };

    fn refusal(self) -> Refusal {
        Refusal {
            check: 10,
            needed: self.0 as u64,
        }
    }
}

impl Refused for UnifyError {
    ghost refusal = { unify_refusal };

    fn refusal(self) -> Refusal {
        match self {
            UnifyError::OutsideData => Refusal {
                check: 9,
                needed: 0,
            },
            UnifyError::NeedsBytes(error) => error.refusal(),
        }
    }
}

pub fn told<E: Refused>(answer: Result<u64, E>, size: &mut u64) -> u8
    ensures number { result ≡ told_number E.refusal answer }
    ensures length { size.new ≡ told_length E.refusal answer }
{
    match answer {
        Ok(n) => {
            *size = n;
            0
        }
        Err(error) => {
            let refusal = error.refusal();
            *size = refusal.needed;
            refusal.check
        }
    }
}

pub fn told_run(answer: Result<usize, NeedsBytes>, size: &mut u64) -> u8
    ensures number { result ≡ run_number answer }
    ensures length { size.new ≡ run_length answer }
{
    told(answer.map(|n| n as u64), size)
}

pub fn told_check(answer: Result<(), Refusal>) -> u8
    ensures { result ≡ check_number answer }
{
    answer.err().map_or(0, |refusal| refusal.check)
}
