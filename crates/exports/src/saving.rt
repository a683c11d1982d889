// The image of a hall.
ghost use Rattle.std.specs.Prelude.{length};
ghost use Rattle.images.specs.Saving.{saved};
ghost use Rattle.exports.specs.Told.{Told};

use crate::told::told;

#[unsafe(no_mangle)]
pub extern "C" fn calicofern_save(hall: &[u8], n: usize, out: &mut [u8], size: &mut u64) -> u8
    ensures { Told (saved hall.now n (length out.old)) out.old result out.new size.new }
{
    told(images::save(hall, n, out), size)
}
