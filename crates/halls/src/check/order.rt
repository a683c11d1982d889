// The order of the hall's checks: 11 to 18, then 27, then 19. What a pass carries is a rank: the check's number, but for 19 a number above 27.
// So the first check that fails is the one of the lowest rank. `verdict_of` makes a `Result` of the last one.
// Ranks stay numbers: with an enum and its derived order the scans were proved and as fast, but enum, ranks and laws take 72 lines and save 26.
ghost use Rattle.std.specs.Prelude.{◌≡◌};
ghost use Rattle.halls.specs.Inner.Order.{check_of, failing, Told};

use crate::answer::Refusal;

// The rank of check 19, which is asked last.
pub const TOO_LARGE: u8 = 99;

// Above every rank: no check fails.
pub const PASSED: u8 = 100;

// Of one check with its rank: that rank, unless the check holds.
pub fn failing(rank: u8, holds: bool) -> u8
    ensures { result ≡ failing rank holds }
{
    if holds {
        return PASSED;
    }
    rank
}

// The number of the check of a rank.
pub fn check_of(rank: u8) -> u8
    ensures { result ≡ check_of rank }
{
    if rank == TOO_LARGE {
        return 19;
    }
    rank
}

// No check fails, or the refusal by the check of a rank.
pub fn verdict_of(rank: u8) -> Result<(), Refusal>
    ensures { Told rank result }
{
    if rank < PASSED {
        return Err(refusal_of(rank));
    }
    Ok(())
}

pub fn refusal_of(rank: u8) -> Refusal
    ensures { result ≡ record { check = check_of rank; needed = 0 } }
{
    Refusal::by(check_of(rank))
}
