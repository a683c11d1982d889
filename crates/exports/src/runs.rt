// Runs of numbers, as little-endian bytes, over the first bytes of a lent output. The C interface has a function for each.
ghost use Rattle.std.specs.Prelude.{◌/◌, length};
ghost use Rattle.vertices.specs.Half.{f16_to_f32, f32_to_f16};
ghost use Rattle.vertices.specs.Normalised.{snorm8_to_f32, unorm8_to_f32, f32_to_snorm8, f32_to_unorm8};
ghost use Rattle.vertices.specs.Runs.{converted};
ghost use Rattle.exports.specs.Told.{Told, fitting, fitting_capped};

use crate::told::told_run;

#[unsafe(no_mangle)]
pub extern "C" fn calicofern_halves_to_floats(src: &[u8], dst: &mut [u8], size: &mut u64) -> u8
    ensures { Told (fitting (length dst.old) (converted 2 4 f16_to_f32 (length src.now / 2) src.now)) dst.old result dst.new size.new }
{
    told_run(vertices::halves_to_floats(src, dst), size)
}

#[unsafe(no_mangle)]
pub extern "C" fn calicofern_floats_to_halves(src: &[u8], dst: &mut [u8], size: &mut u64) -> u8
    ensures { Told (fitting (length dst.old) (converted 4 2 f32_to_f16 (length src.now / 4) src.now)) dst.old result dst.new size.new }
{
    told_run(vertices::floats_to_halves(src, dst), size)
}

#[unsafe(no_mangle)]
pub extern "C" fn calicofern_snorm8_to_floats(src: &[u8], dst: &mut [u8], size: &mut u64) -> u8
    ensures { Told (fitting_capped (length dst.old) (converted 1 4 snorm8_to_f32 (length src.now) src.now)) dst.old result dst.new size.new }
{
    told_run(vertices::snorm8_to_floats(src, dst), size)
}

#[unsafe(no_mangle)]
pub extern "C" fn calicofern_unorm8_to_floats(src: &[u8], dst: &mut [u8], size: &mut u64) -> u8
    ensures { Told (fitting_capped (length dst.old) (converted 1 4 unorm8_to_f32 (length src.now) src.now)) dst.old result dst.new size.new }
{
    told_run(vertices::unorm8_to_floats(src, dst), size)
}

#[unsafe(no_mangle)]
pub extern "C" fn calicofern_floats_to_snorm8(src: &[u8], dst: &mut [u8], size: &mut u64) -> u8
    ensures { Told (fitting (length dst.old) (converted 4 1 f32_to_snorm8 (length src.now / 4) src.now)) dst.old result dst.new size.new }
{
    told_run(vertices::floats_to_snorm8(src, dst), size)
}

#[unsafe(no_mangle)]
pub extern "C" fn calicofern_floats_to_unorm8(src: &[u8], dst: &mut [u8], size: &mut u64) -> u8
    ensures { Told (fitting (length dst.old) (converted 4 1 f32_to_unorm8 (length src.now / 4) src.now)) dst.old result dst.new size.new }
{
    told_run(vertices::floats_to_unorm8(src, dst), size)
}
