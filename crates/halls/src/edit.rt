// The seven calls that edit a hall in its buffer.
pub mod add_geometry;
pub mod add_model;
pub mod judge_read;
pub mod remove;
pub mod replace_indices;
pub mod set_attribute;
pub mod take_in;
pub mod write_taken;
