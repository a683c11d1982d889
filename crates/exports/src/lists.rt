// The hall list call, the hall check, and what is asked of models and lists.
ghost use Rattle.std.specs.Prelude.{◌≡◌, not, ◌-◌, ◌/◌, ◌%◌, ◌^◌, min, eqb, length};
ghost use Rattle.sections.specs.Address.{sections};
ghost use Rattle.halls.specs.Checks.{hall_verdict};
ghost use Rattle.halls.specs.Listing.{hall_list};
ghost use Rattle.halls.specs.Records.{records};
ghost use Rattle.halls.specs.Triangles.{triangles_in};
ghost use Rattle.exports.specs.Told.{Told, verdict_number};

use crate::told::{told, told_check};
use sections::ResReader;

#[unsafe(no_mangle)]
pub extern "C" fn calicofern_hall_list<'a>(
    system: &'a [u8],
    graphics: &'a [u8],
    va: u64,
    list: &mut [u8],
    size: &mut u64,
) -> u8
    ensures { Told (hall_list (sections system.now graphics.now) va (length list.old)) list.old result list.new size.new }
{
    let reader = ResReader::new(system, graphics);
    told(halls::hall_list(&reader, va, list), size)
}

#[unsafe(no_mangle)]
pub extern "C" fn calicofern_hall_check(list: &[u8], n: usize) -> u8
    ensures { result ≡ verdict_number (hall_verdict list.now n) }
{
    told_check(halls::hall_check(list, n))
}

#[unsafe(no_mangle)]
pub extern "C" fn calicofern_triangle_count(list: &[u8]) -> u64
    ensures { result ≡ min (triangles_in (records list.now)) (2 ^ 64 - 1) }
{
    halls::triangle_count(list)
}

#[unsafe(no_mangle)]
pub extern "C" fn calicofern_bone_index(skeleton_binding: u32) -> u8
    ensures { result ≡ skeleton_binding / 2 ^ 24 }
{
    halls::bone_index(skeleton_binding)
}

#[unsafe(no_mangle)]
pub extern "C" fn calicofern_is_skinned(skeleton_binding: u32) -> bool
    ensures { result ≡ not (eqb (skeleton_binding / 2 ^ 8 % 256) 0) }
{
    halls::is_skinned(skeleton_binding)
}
