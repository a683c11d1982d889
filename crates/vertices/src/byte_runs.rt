// Runs of normalised bytes: to floats, which are little-endian, and back.
ghost use Rattle.vertices.specs.ByteRuns.{Widened};
ghost use Rattle.vertices.specs.Normalised.{snorm8_to_f32, unorm8_to_f32, f32_to_snorm8, f32_to_unorm8};
ghost use Rattle.vertices.specs.Runs.{Converted};

use crate::normalised::{f32_to_snorm8, f32_to_unorm8, snorm8_to_f32, unorm8_to_f32};
use crate::runs::{NeedsBytes, convert_all};

// The floats of the signed bytes in src over the first bytes of dst.
pub fn snorm8_to_floats(src: &[u8], dst: &mut [u8]) -> Result<usize, NeedsBytes>
    ensures { Widened snorm8_to_f32 src.now dst.old result dst.new }
{
    convert_all(snorm8_to_f32, src, dst)
}

// The floats of the unsigned bytes in src over the first bytes of dst.
pub fn unorm8_to_floats(src: &[u8], dst: &mut [u8]) -> Result<usize, NeedsBytes>
    ensures { Widened unorm8_to_f32 src.now dst.old result dst.new }
{
    convert_all(unorm8_to_f32, src, dst)
}

// The signed bytes of the floats in src over the first bytes of dst. Up to three last bytes of src that make no float are not read.
pub fn floats_to_snorm8(src: &[u8], dst: &mut [u8]) -> Result<usize, NeedsBytes>
    ensures { Converted 4 1 f32_to_snorm8 src.now dst.old result dst.new }
{
    convert_all(f32_to_snorm8, src, dst)
}

// The unsigned bytes of the floats in src over the first bytes of dst. Up to three last bytes of src that make no float are not read.
pub fn floats_to_unorm8(src: &[u8], dst: &mut [u8]) -> Result<usize, NeedsBytes>
    ensures { Converted 4 1 f32_to_unorm8 src.now dst.old result dst.new }
{
    convert_all(f32_to_unorm8, src, dst)
}
