// One attribute of one vertex, set in place: the hall's length stays as it is.
ghost use Rattle.halls.specs.Calls.{set_attribute};
ghost use Rattle.halls.specs.Step.{Stepped};

use crate::answer::Refusal;
use crate::check::find::find_placed;
use crate::check::sought::GeometryId;
use sections::u16_le;
use vertices::{VertexAttributeValue, encode_value, has_shape, read_declaration};

// What is to be set: the component of a semantic in one vertex of a geometry, and to which value. The semantic is a number, as C passes it: one that no component
// has is refused by 22.
#[derive(Clone, Copy)]
pub struct AttributeChange {
    pub geometry: GeometryId,
    pub vertex: u64,
    pub semantic: u64,
    pub value: VertexAttributeValue,
}

// Sets the component of a semantic in one vertex of a geometry, in the hall of the first n bytes.
pub fn set_attribute(hall: &mut [u8], n: usize, change: AttributeChange) -> Result<u64, Refusal>
    ensures { Stepped (set_attribute change.geometry.model change.geometry.index change.vertex change.semantic change.value) hall.old n result hall.new }
{
    let found = find_placed(hall, n, change.geometry)?;
    let at = found.places.geometry;
    if u64::from(u16_le(hall, at + 16)) <= change.vertex {
        return Err(Refusal::by(21));
    }
    let declaration = read_declaration(hall, found.places.declaration + 6);
    let component = declaration
        .component(change.semantic)
        .ok_or(Refusal::by(22))?;
    // Not by a `filter` of the component: two laws say of the two cases that 22 is due, and behind a filter it is not known which case it was.
    if component.size == 0 {
        return Err(Refusal::by(22));
    }
    let component_type = component.component_type;
    if !has_shape(component_type, change.value) {
        return Err(Refusal::by(23));
    }
    let stride = usize::from(u16_le(hall, at + 18));
    let begin = found.places.vertices + 13 + change.vertex as usize * stride;
    let place = begin + usize::from(component.offset);
    encode_value(hall, place, component_type, change.value);
    Ok(n as u64)
}
