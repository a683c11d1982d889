// What each word of a unified vertex is made from. A unified vertex is 21 words of 4 bytes, and each has one source, its lane, in every vertex: as_vec2 and
// as_vec3 are the first words of as_vec4 for every type, and a colour or blend indices are one word.
ghost use Rattle.std.specs.Prelude.{◌≡◌, ◌<◌};
ghost use Rattle.vertices.specs.Unified.{holds_indices};
ghost use Rattle.vertices.specs.Inner.Lanes.{element_lane, missing_word, place_lane, rgba8_lane, vector_lane, colour_lane, index_lane};
ghost use Rattle.vertices.specs.Inner.Lanes.{lane_of};

use crate::types::{VertexComponent, VertexComponentType};
use crate::unify::UnifiedPlan;
use crate::values::F32;

// `Bytes4::WHITE` as a word, spelled out: the value of a constant calls no function.
const WHITE: u32 = 0xFFFF_FFFF;

// The words of a normal and of a tangent that a vertex has not: 1.0 in z, and in x and w.
const NORMAL: [u32; 3] = [0, 0, F32::ONE.bits];

const TANGENT: [u32; 4] = [F32::ONE.bits, 0, 0, F32::ONE.bits];

// Where a word comes from. The number is an offset in the vertex, that of Constant the word itself.
#[derive(Clone, Copy)]
pub enum Lane {
    Constant(u32),
    // A float.
    Word(usize),
    // A half, as a float.
    Half(usize),
    // A normalised byte, as a float.
    Snorm(usize),
    Unorm(usize),
    // Four bytes as they are.
    Raw(usize),
    // Four values of a type, as a colour.
    Rgba8(VertexComponentType, usize),
}

// The lane of the word j, of 21, in the order of the fields. By number: a list of the 21 lanes would name each of them, and an enum of
// the fields would need beside it the place in the field, which is a difference here.
#[tactic(auto, using(crate::proofs::LaneLaws::normal_default), unfolding(crate::specs::Inner::Lanes::lane_of, crate::specs::Inner::Lanes::front_lane, crate::specs::Inner::Lanes::back_lane))]
pub fn lane_of(plan: UnifiedPlan, j: usize) -> Lane
    ensures { result ≡ lane_of plan j }
{
    match j {
        0..3 => vector_lane(plan.position, j, 0),
        3..6 => vector_lane(plan.normal, j - 3, NORMAL[j - 3]),
        6 => colour_lane(plan.color0),
        7 => colour_lane(plan.color1),
        8..10 => vector_lane(plan.texcoord0, j - 8, 0),
        10..12 => vector_lane(plan.texcoord1, j - 10, 0),
        12..16 => vector_lane(plan.tangent, j - 12, TANGENT[j - 12]),
        16..20 => vector_lane(plan.blend_weights, j - 16, 0),
        _ => index_lane(plan.blend_indices),
    }
}

// The place k of a vector.
#[tactic(auto, unfolding(crate::specs::Inner::Lanes::vector_lane))]
fn vector_lane(found: Option<VertexComponent>, k: usize, default: u32) -> Lane
    ensures { result ≡ vector_lane found k default }
{
    found.map_or(Lane::Constant(default), |component| {
        place_lane(component, k)
    })
}

fn place_lane(component: VertexComponent, k: usize) -> Lane
    ensures { result ≡ place_lane component.component_type component.offset k }
{
    let component_type = component.component_type;
    let count = component_type.component_count();
    if k < usize::from(count) {
        return element_lane(component_type, usize::from(component.offset), k);
    }
    Lane::Constant(missing_word(count, k))
}

fn element_lane(component_type: VertexComponentType, at: usize, k: usize) -> Lane
    requires { (at < 65536) × (k < 256) }
    ensures { result ≡ element_lane component_type at k }
{
    match component_type {
        VertexComponentType::Half2 | VertexComponentType::Half4 => Lane::Half(at + 2 * k),
        VertexComponentType::Float
        | VertexComponentType::Float2
        | VertexComponentType::Float3
        | VertexComponentType::Float4 => Lane::Word(at + 4 * k),
        VertexComponentType::UByte4 | VertexComponentType::Colour => Lane::Unorm(at + k),
        VertexComponentType::Rgba8Snorm => Lane::Snorm(at + k),
        VertexComponentType::Nothing
        | VertexComponentType::FloatUnknown
        | VertexComponentType::Unknown(_) => Lane::Constant(0),
    }
}

// What a vector of n values has at the place k behind them: 1.0 as w, 0 else; and 0 where there are no values.
fn missing_word(n: u8, k: usize) -> u32
    ensures { result ≡ missing_word n k }
{
    if n != 0 && k == 3 {
        return F32::ONE.bits;
    }
    0
}

#[tactic(auto, unfolding(crate::specs::Inner::Lanes::colour_lane))]
fn colour_lane(found: Option<VertexComponent>) -> Lane
    ensures { result ≡ colour_lane found }
{
    found.map_or(Lane::Constant(WHITE), |component| {
        rgba8_lane(component.component_type, usize::from(component.offset))
    })
}

fn rgba8_lane(component_type: VertexComponentType, at: usize) -> Lane
    ensures { result ≡ rgba8_lane component_type at }
{
    match component_type {
        VertexComponentType::UByte4 | VertexComponentType::Colour => Lane::Raw(at),
        VertexComponentType::Half4
        | VertexComponentType::Float4
        | VertexComponentType::Rgba8Snorm => Lane::Rgba8(component_type, at),
        VertexComponentType::Nothing
        | VertexComponentType::Half2
        | VertexComponentType::Float
        | VertexComponentType::FloatUnknown
        | VertexComponentType::Float2
        | VertexComponentType::Float3
        | VertexComponentType::Unknown(_) => Lane::Constant(WHITE),
    }
}

#[tactic(auto, unfolding(crate::specs::Inner::Lanes::index_lane))]
fn index_lane(found: Option<VertexComponent>) -> Lane
    ensures { result ≡ index_lane found }
{
    match found {
        Some(component) if holds_indices(component.component_type) => {
            rgba8_lane(component.component_type, usize::from(component.offset))
        }
        _ => Lane::Constant(0),
    }
}

fn holds_indices(component_type: VertexComponentType) -> bool
    ensures { result ≡ holds_indices component_type }
{
    matches!(component_type, VertexComponentType::UByte4)
}
