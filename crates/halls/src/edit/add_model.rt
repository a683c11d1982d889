// The call add model: a model without geometries, at the end of a hall.
ghost use Rattle.halls.specs.Calls.{add_model};
ghost use Rattle.halls.specs.Step.{Stepped};

use crate::answer::{Refusal, room};
use crate::check::check::examine_first;
use crate::check::order::verdict_of;
use crate::check::pass::{Summary, limits_lowest};
use crate::format::front::model_units;
use crate::format::numbers::ModelNumbers;
use crate::format::record::put_model_numbers;

// A model without geometries. Of the result only checks 13, 19 and 24 can fail: the model adds its block to the image and 12 bytes to the list.
pub fn add_model(hall: &mut [u8], n: usize, binding: u32, mask: u16) -> Result<u64, Refusal>
    ensures { Stepped (add_model binding mask) hall.old n result hall.new }
{
    let found = examine_first(hall, n)?;
    let grown = Summary {
        models: found.models + 1,
        units: found.units + model_units(0),
        ..found
    };
    verdict_of(limits_lowest(grown))?;
    let needed = n as u64 + 12;
    room(24, hall.len(), needed)?;
    put_model_numbers(hall, n, 6, ModelNumbers { binding, mask });
    Ok(needed)
}
