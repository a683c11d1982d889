// The bytes of a list: records one behind the other, what stands at the front, the records as they are put, and what they say of triangles and of bones.
pub mod fields;
pub mod front;
pub mod kind;
pub mod model;
pub mod numbers;
pub mod record;
pub mod record_indices;
pub mod triangles;
pub mod walk;
