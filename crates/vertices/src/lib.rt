// Vertices: floats carried as their bits, and how vertex data stores them.
#![tactic(auto)]

mod attribute;
mod attributes;
mod buffer;
mod byte_runs;
mod components;
mod declaration;
mod encode;
mod halves;
mod known;
mod lane;
mod normalised;
mod runs;
mod strips;
mod types;
mod unify;
mod values;
mod vertices;

pub use attribute::{VertexAttribute, VertexAttributeValue, as_rgba8};
pub use attributes::{AttributeError, Attributes, read_vertex_attributes};
pub use buffer::{VertexBuffer, VertexBufferLayout, or_position_only, parse_vertex_buffer_at};
pub use byte_runs::{floats_to_snorm8, floats_to_unorm8, snorm8_to_floats, unorm8_to_floats};
pub use components::Components;
pub use declaration::{VertexDeclaration, read_declaration, write_declaration};
pub use encode::{encode_value, has_shape};
pub use halves::{f16_to_f32, f32_to_f16};
pub use normalised::{f32_to_snorm8, f32_to_unorm8, snorm_colour8, snorm8_to_f32, unorm8_to_f32};
pub use runs::{NeedsBytes, floats_to_halves, halves_to_floats};
pub use types::{VertexComponent, VertexComponentType, VertexSemantic};
pub use unify::{UnifiedVertex, UnifyError, unified_vertices};
pub use values::{Bytes4, F32, Vec2, Vec3, Vec4};
pub use vertices::Vertices;
