// Unified vertices: every vertex of a buffer in one form, 84 bytes when written out.
ghost use Rattle.std.specs.Prelude.{◌≡◌, ℕ, ◌+◌, ◌-◌, ◌*◌, ◌≤◌, ◌<◌, length};
ghost use Rattle.sections.specs.Edit.{overwrite};
ghost use Rattle.vertices.specs.Unified.{vertices_inside, run_of, Unified};
ghost use Rattle.vertices.specs.Inner.Plan.{plan_of, planned_vertex, Readable};
ghost use Rattle.vertices.specs.Inner.Lanes.{BlockReady, BlockWritten, BlockBegun};

use crate::declaration::VertexDeclaration;
use crate::lane::lane_of;
use crate::runs::{NeedsBytes, fitting};
use crate::strips::{Block, SIZE, Strip, WORDS, write_strip};
use crate::types::{VertexComponent, VertexSemantic};
use crate::values::{Bytes4, Vec2, Vec3, Vec4};
use crate::vertices::Vertices;
use sections::copy_within;
use std::{error, fmt};

#[derive(Clone, Copy)]
pub struct UnifiedVertex {
    pub position: Vec3,
    pub normal: Vec3,
    pub color0: Bytes4,
    pub color1: Bytes4,
    pub texcoord0: Vec2,
    pub texcoord1: Vec2,
    pub tangent: Vec4,
    pub blend_weights: Vec4,
    pub blend_indices: Bytes4,
}

// OutsideData: a component of some vertex does not end inside the data. NeedsBytes: the output is too short.
#[derive(Clone, Copy, Debug, PartialEq, Eq)]
pub enum UnifyError {
    OutsideData,
    NeedsBytes(NeedsBytes),
}

impl fmt::Display for UnifyError {
    fn fmt<W: fmt::Write>(&self, f: &mut fmt::Formatter<W>) -> fmt::Result {
        match self {
            Self::OutsideData => f.write_str(
                "a component of a vertex does not end inside the data",
            ),
            Self::NeedsBytes(needed) => write!(f, "{needed}"),
        }
    }
}

impl error::Error for UnifyError {}

impl From<NeedsBytes> for UnifyError {
    ghost use Rattle.std.specs.Prelude.{◌≡◌};
    ghost use Rattle.vertices.specs.declared.unify.UnifyError.TheVariants.{NeedsBytes};

    ghost from_gives = { λ needed error. error ≡ NeedsBytes needed };

    fn from(needed: NeedsBytes) -> Self {
        UnifyError::NeedsBytes(needed)
    }
}

// The component behind each field. It depends on the declaration alone, and is found once for all vertices.
#[derive(Clone, Copy)]
pub struct UnifiedPlan {
    pub position: Option<VertexComponent>,
    pub normal: Option<VertexComponent>,
    pub color0: Option<VertexComponent>,
    pub color1: Option<VertexComponent>,
    pub texcoord0: Option<VertexComponent>,
    pub texcoord1: Option<VertexComponent>,
    pub tangent: Option<VertexComponent>,
    pub blend_weights: Option<VertexComponent>,
    pub blend_indices: Option<VertexComponent>,
}

// Vertices of a block: 4,032 bytes, which `copy_within` moves at once.
const BLOCK: usize = 48;

// All vertices over the first bytes of out. A refusal leaves out as it was.
pub fn unified_vertices(vertices: Vertices, out: &mut [u8]) -> Result<u64, UnifyError>
    ensures { Unified vertices.entry.declaration vertices.entry.«data».now vertices.entry.stride vertices.entry.count out.old result out.new }
{
    if !all_inside(vertices) {
        return Err(UnifyError::OutsideData);
    }
    let size = fitting(SIZE * vertices.count as usize, out.len())?;
    unify_all(vertices, plan_of(vertices.declaration), out);
    Ok(size as u64)
}

// Whether every component of nonzero size of every vertex ends inside the data. It is enough to test the last vertex.
fn all_inside(vertices: Vertices) -> bool
    ensures { result ≡ vertices_inside vertices.entry.declaration (length vertices.entry.«data».now) vertices.entry.stride vertices.entry.count }
{
    let count = vertices.count as usize;
    let total = usize::from(vertices.declaration.size_in_bytes());
    count == 0 || total == 0 || vertices.base_of(count - 1) + total <= vertices.data.len()
}

fn plan_of(declaration: VertexDeclaration) -> UnifiedPlan
    ensures { result ≡ plan_of declaration }
{
    UnifiedPlan {
        position: declaration.component_of(VertexSemantic::Position),
        normal: declaration.component_of(VertexSemantic::Normal),
        color0: declaration.component_of(VertexSemantic::Colour0),
        color1: declaration.component_of(VertexSemantic::Colour1),
        texcoord0: declaration.component_of(VertexSemantic::TexCoord0),
        texcoord1: declaration.component_of(VertexSemantic::TexCoord1),
        tangent: declaration.component_of(VertexSemantic::Tangent),
        blend_weights: declaration.component_of(VertexSemantic::BlendWeights),
        blend_indices: declaration.component_of(VertexSemantic::BlendIndices),
    }
}

// All vertices, block by block.
fn unify_all(vertices: Vertices, plan: UnifiedPlan, out: &mut [u8])
    requires { (84 * vertices.count ≤ length out.old) × ((i : ℕ) → i < vertices.count → Readable plan (i * vertices.stride) (length vertices.«data».now)) }
    ensures { out.new ≡ overwrite out.old 0 (run_of (λ (i : ℕ). planned_vertex plan vertices.entry.«data».now (i * vertices.entry.stride)) vertices.entry.count) }
{
    let count = vertices.count as usize;
    for first in (0..count).step_by(BLOCK) {
        let end = first + BLOCK.min(count - first);
        let block = Block { first, end };
        begin_block(out, block);
        unify_block(vertices, plan, out, block);
    }
}

// A later block begins as a copy of the first, so that its constants stand.
fn begin_block(out: &mut [u8], block: Block)
    requires { (block.first ≤ block.end) × (84 * block.end ≤ length out.old) × (0 < block.first → block.end - block.first ≤ block.first) }
    ensures { BlockBegun block.first block.end out.old out.new }
{
    let Block { first, end } = block;
    if first == 0 {
        return;
    }
    copy_within(out, 0, first * SIZE, (end - first) * SIZE);
}

// The vertices of a block, one word of all of them after another.
fn unify_block(vertices: Vertices, plan: UnifiedPlan, out: &mut [u8], block: Block)
    requires { BlockReady plan vertices.stride block.first block.end vertices.«data».now out.old }
    ensures { BlockWritten plan vertices.entry.«data».now vertices.entry.stride block.first block.end 21 out.old out.new }
{
    for word in 0..WORDS {
        write_strip(vertices, lane_of(plan, word), out, Strip { block, word });
    }
}
