// Unified vertices, 84 bytes each.
ghost use Rattle.std.specs.Prelude.{length};
ghost use Rattle.exports.specs.Passed.{declared};
ghost use Rattle.exports.specs.Told.{Told};
ghost use Rattle.exports.specs.Unify.{unified_outcome};

use crate::declared::declaration;
use crate::told::told;
use vertices::{Vertices, unified_vertices};

#[unsafe(no_mangle)]
pub extern "C" fn calicofern_unified_vertices(
    data: &[u8],
    stride: u16,
    count: u32,
    flags: u32,
    types: u64,
    out: &mut [u8],
    size: &mut u64,
) -> u8
    ensures { Told (unified_outcome (declared flags types) «data».now stride count (length out.old)) out.old result out.new size.new }
{
    let vertices = Vertices {
        data,
        stride,
        count,
        declaration: declaration(flags, types),
    };
    told(unified_vertices(vertices, out), size)
}
