// Halls: the list of a drawable's models and geometries, the check that makes it a hall, and the calls that edit one.
//
// A hall is lent as a buffer and n, not as a part of a slice: a call that lengthens it writes beyond n, and C lends it so. What only reads it takes the
// same two, so that every call asks of n alike. In the same way what puts bytes takes a buffer and a place (`out`, `at`), also in the crate of images: its clause
// says what the whole buffer is afterwards, where of a part the caller would have to put that together.
#![tactic(auto)]

mod answer;
mod check;
mod edit;
mod format;
mod read;

pub use answer::{Refusal, room};
pub use check::check::{HallSize, hall_check, hall_size};
pub use check::find::{GeometryPlace, find_geometry, find_model};
pub use check::sought::GeometryId;
pub use edit::add_geometry::{GivenGeometry, add_geometry};
pub use edit::add_model::add_model;
pub use edit::remove::{remove_geometry, remove_model};
pub use edit::replace_indices::replace_indices;
pub use edit::set_attribute::{AttributeChange, set_attribute};
pub use edit::take_in::take_in;
pub use format::front::{GeometryShape, entries_of, shape_of};
pub use format::model::{bone_index, is_skinned};
pub use format::triangles::triangle_count;
pub use read::list::hall_list;
pub use sections::ResReader;
