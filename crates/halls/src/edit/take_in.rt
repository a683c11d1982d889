// Take in: the hall becomes what two sections hold behind the address of a LOD header.
ghost use Rattle.std.specs.Prelude.{◌≡◌, ◌≤◌, length};
ghost use Rattle.sections.specs.Address.{sections_of};
ghost use Rattle.halls.specs.Calls.{take_in};
ghost use Rattle.halls.specs.List.{each};
ghost use Rattle.halls.specs.Step.{rewritten, Stepped};
ghost use Rattle.halls.specs.Inner.Taking.{model_bytes};

use crate::answer::{Refusal, room};
use crate::check::check::hall_check;
use crate::check::order::verdict_of;
use crate::check::pass::limits_lowest;
use crate::edit::judge_read::judge_models;
use crate::edit::write_taken::write_taken_models;
use crate::read::measure::measure_list;
use crate::read::stored::Models;
use sections::{ResReader, zero};

// The hall of the first n bytes becomes the one behind the header at `va`. The sections are looked at three times: to refuse by 1 to 6, to judge, and to write.
pub fn take_in(hall: &mut [u8], n: usize, reader: &ResReader, va: u64) -> Result<u64, Refusal>
    ensures { Stepped (take_in (sections_of reader.now) va) hall.old n result hall.new }
{
    hall_check(hall, n)?;
    let found = measure_list(reader, va)?;
    let taken = judge_models(Models::new(&found.limited, found.pointers));
    verdict_of(taken.lowest.min(limits_lowest(taken.summary)))?;
    room(24, hall.len(), taken.length)?;
    put_hall(hall, n, Models::new(&found.limited, found.pointers));
    Ok(taken.length)
}

// The models in the place of the first n bytes.
fn put_hall(hall: &mut [u8], n: usize, models: Models)
    requires { (n ≤ length hall.old) × (length (each model_bytes models) ≤ length hall.old) }
    ensures { hall.new ≡ rewritten hall.old n (each model_bytes models.entry) }
{
    let end = write_taken_models(hall, 0, models);
    if n <= end {
        return;
    }
    zero(hall, end, n - end);
}
