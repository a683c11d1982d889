// From two sections and an address to the list of models and geometries.
pub mod entries;
pub mod limited;
pub mod list;
pub mod measure;
pub mod parts;
pub mod pointers;
pub mod stored;
pub mod view;
pub mod widen;
pub mod write;
