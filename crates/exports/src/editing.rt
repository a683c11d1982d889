// The calls that edit the hall in the first n bytes of a lent buffer. The C interface passes every number as an argument of its own: so some functions have
// more than seven parameters, and a semantic and a value's shape are numbers.
ghost use Rattle.sections.specs.Address.{sections};
ghost use Rattle.halls.specs.Calls.{add_model, remove_geometry, remove_model, set_attribute, replace_indices, take_in};
ghost use Rattle.exports.specs.Editing.{ToldStep};
ghost use Rattle.exports.specs.Passed.{passed_addition, passed_value};

use crate::told::told;
use crate::values::passed_value;
use halls::{AttributeChange, GeometryId, GivenGeometry};
use sections::ResReader;
use vertices::VertexDeclaration;

#[unsafe(no_mangle)]
pub extern "C" fn calicofern_add_model(
    hall: &mut [u8],
    n: usize,
    binding: u32,
    mask: u16,
    size: &mut u64,
) -> u8
    ensures { ToldStep (add_model binding mask) hall.old n result hall.new size.new }
{
    told(halls::add_model(hall, n, binding, mask), size)
}

#[unsafe(no_mangle)]
pub extern "C" fn calicofern_add_geometry(
    hall: &mut [u8],
    n: usize,
    shader: u16,
    flags: u32,
    declared_stride: u16,
    unknown_6h: u8,
    declared_count: u8,
    types: u64,
    stride: u16,
    count: u32,
    content: &[u8],
    indices: &[u32],
    size: &mut u64,
) -> u8
    ensures { ToldStep (passed_addition shader flags declared_stride unknown_6h declared_count types stride count content.now indices.now) hall.old n result hall.new size.new }
{
    let declaration = VertexDeclaration {
        flags,
        stride: declared_stride,
        unknown_6h,
        count: declared_count,
        types,
    };
    let given = GivenGeometry {
        shader,
        declaration,
        stride,
        count,
        content,
        indices,
    };
    told(halls::add_geometry(hall, n, given), size)
}

#[unsafe(no_mangle)]
pub extern "C" fn calicofern_remove_geometry(
    hall: &mut [u8],
    n: usize,
    model: u64,
    geometry: u64,
    size: &mut u64,
) -> u8
    ensures { ToldStep (remove_geometry model geometry) hall.old n result hall.new size.new }
{
    let removed = GeometryId {
        model,
        index: geometry,
    };
    told(halls::remove_geometry(hall, n, removed), size)
}

#[unsafe(no_mangle)]
pub extern "C" fn calicofern_remove_model(
    hall: &mut [u8],
    n: usize,
    model: u64,
    size: &mut u64,
) -> u8
    ensures { ToldStep (remove_model model) hall.old n result hall.new size.new }
{
    told(halls::remove_model(hall, n, model), size)
}

#[unsafe(no_mangle)]
pub extern "C" fn calicofern_set_attribute(
    hall: &mut [u8],
    n: usize,
    model: u64,
    geometry: u64,
    vertex: u64,
    semantic: u64,
    shape: u8,
    x: u32,
    y: u32,
    z: u32,
    w: u32,
    size: &mut u64,
) -> u8
    ensures { ToldStep (set_attribute model geometry vertex semantic (passed_value shape x y z w)) hall.old n result hall.new size.new }
{
    let change = AttributeChange {
        geometry: GeometryId {
            model,
            index: geometry,
        },
        vertex,
        semantic,
        value: passed_value(shape, x, y, z, w),
    };
    told(halls::set_attribute(hall, n, change), size)
}

#[unsafe(no_mangle)]
pub extern "C" fn calicofern_replace_indices(
    hall: &mut [u8],
    n: usize,
    model: u64,
    geometry: u64,
    indices: &[u32],
    size: &mut u64,
) -> u8
    ensures { ToldStep (replace_indices model geometry indices.now) hall.old n result hall.new size.new }
{
    let replaced = GeometryId {
        model,
        index: geometry,
    };
    told(halls::replace_indices(hall, n, replaced, indices), size)
}

#[unsafe(no_mangle)]
pub extern "C" fn calicofern_take_in<'a>(
    hall: &mut [u8],
    n: usize,
    system: &'a [u8],
    graphics: &'a [u8],
    va: u64,
    size: &mut u64,
) -> u8
    ensures { ToldStep (take_in (sections system.now graphics.now) va) hall.old n result hall.new size.new }
{
    let reader = ResReader::new(system, graphics);
    told(halls::take_in(hall, n, &reader, va), size)
}
