// Checks 14 to 18 and 27 of one geometry.
ghost use Rattle.std.specs.Prelude.{◌≡◌};
ghost use Rattle.halls.specs.Checks.{has_size, strides_agree, vertex_counts_agree, index_counts_agree};
ghost use Rattle.halls.specs.Fronts.{GeometryFront, front_geometry};
ghost use Rattle.halls.specs.Inner.Judging.{HeadJudged, HeadTested, head_of, inside_stride, lowest_of};

use crate::check::lists::ByteIndices;
use crate::check::order::PASSED;
use crate::check::scan::triangles_lowest;
use crate::format::front::GeometryShape;
use crate::format::numbers::GeometryNumbers;
use sections::{u8_le, u16_le, u32_le};
use vertices::{VertexComponent, VertexDeclaration, VertexSemantic, read_declaration};

// The most vertices of a geometry (check 16).
pub const MOST_VERTICES: u32 = 65535;

// The numbers of a geometry's four records, and how many indices it holds. The layout is a number: in a list that is not checked yet any byte may stand there.
#[derive(Clone, Copy)]
pub struct GeometryHead {
    pub numbers: GeometryNumbers,
    pub declaration: VertexDeclaration,
    pub layout: u8,
    pub vertices_stride: u16,
    pub vertices_count: u32,
    pub indices_count: u32,
    pub held: usize,
}

// The rank of the first check that the geometry at the front fails, or PASSED.
pub fn geometry_lowest(front: &[u8], shape: GeometryShape) -> u8
    requires { GeometryFront front.now shape.content shape.held }
    ensures { result ≡ lowest_of (front_geometry front.now) }
{
    let head = geometry_head(front, shape);
    let lowest = head_lowest(head);
    if lowest != PASSED {
        return lowest;
    }
    let triangles = head.numbers.triangle_count as usize;
    let indices = ByteIndices::<u32>::of(&front[65 + shape.content..]);
    triangles_lowest(indices, triangles, head.vertices_count)
}

// Its vertex bytes and indices are known to be whole.
pub fn geometry_head(front: &[u8], shape: GeometryShape) -> GeometryHead
    requires { GeometryFront front.now shape.content shape.held }
    ensures { result ≡ head_of (front_geometry front.now) }
{
    GeometryHead {
        numbers: GeometryNumbers {
            shader: u16_le(front, 6),
            index_count: u32_le(front, 8),
            triangle_count: u32_le(front, 12),
            vertex_count: u16_le(front, 16),
            stride: u16_le(front, 18),
        },
        declaration: read_declaration(front, 26),
        layout: u8_le(front, 48),
        vertices_stride: u16_le(front, 49),
        vertices_count: u32_le(front, 51),
        indices_count: u32_le(front, 61 + shape.content),
        held: shape.held,
    }
}

// The first of checks 14 to 17 that fails, or PASSED.
pub fn head_lowest(head: GeometryHead) -> u8
    ensures { HeadJudged head result }
{
    if !strides_agree(head) {
        return 14;
    }
    if !components_inside(head.declaration, head.numbers.stride) {
        return 15;
    }
    if !vertex_counts_agree(head) {
        return 16;
    }
    if !index_counts_agree(head) {
        return 17;
    }
    PASSED
}

fn strides_agree(head: GeometryHead) -> bool
    ensures { HeadTested strides_agree head result }
{
    head.layout == 0
        && head.declaration.stride == head.numbers.stride
        && head.vertices_stride == head.numbers.stride
}

// Check 15: the position has a size, and all components together are no longer than the stride.
#[tactic(auto, unfolding(crate::specs::Inner::Judging::inside_stride))]
pub fn components_inside(declaration: VertexDeclaration, stride: u16) -> bool
    ensures { result ≡ inside_stride declaration stride }
{
    has_size(declaration.component_of(VertexSemantic::Position))
        && declaration.size_in_bytes() <= stride
}

fn has_size(component: Option<VertexComponent>) -> bool
    ensures { result ≡ has_size component }
{
    component.is_some_and(|c| 0 < c.size)
}

// Two comparisons: with `matches!` or `contains` in their place the check left two goals of the proof open, which it finds by itself here.
fn vertex_counts_agree(head: GeometryHead) -> bool
    ensures { HeadTested vertex_counts_agree head result }
{
    let count = head.vertices_count;
    u32::from(head.numbers.vertex_count) == count && 1 <= count && count <= MOST_VERTICES
}

fn index_counts_agree(head: GeometryHead) -> bool
    ensures { HeadTested index_counts_agree head result }
{
    let held = head.held;
    head.numbers.index_count as usize == held
        && head.indices_count as usize == held
        && held == 3 * head.numbers.triangle_count as usize
        && 3 <= held
}
