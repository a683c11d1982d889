// The hall list call: the models and geometries behind a LOD header, written out as records.
ghost use Rattle.std.specs.Prelude.{◌≡◌, length};
ghost use Rattle.sections.specs.Address.{sections_of};
ghost use Rattle.halls.specs.Listing.{hall_list};
ghost use Rattle.halls.specs.Outcome.{answer_of, after};

use crate::answer::{Refusal, room};
use crate::read::measure::measure_list;
use crate::read::stored::Models;
use crate::read::write::write_models;
use sections::ResReader;

// The list behind the header at `va`, over the first bytes of `list`. Everything is looked at twice: once to refuse and to add up
// the length, once to write. So a refusal writes nothing.
pub fn hall_list(reader: &ResReader, va: u64, list: &mut [u8]) -> Result<u64, Refusal>
    ensures answer { result ≡ answer_of (hall_list (sections_of reader.now) va (length list.old)) }
    ensures bytes { list.new ≡ after (hall_list (sections_of reader.now) va (length list.old)) list.old }
{
    let found = measure_list(reader, va)?;
    room(7, list.len(), found.length)?;
    write_models(list, 0, Models::new(&found.limited, found.pointers));
    Ok(found.length)
}
