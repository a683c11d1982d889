// The fields of records of kind 1, a model, and of kind 2, a geometry.

// Kind 1's, without the mapping.
#[derive(Clone, Copy)]
pub struct ModelNumbers {
    pub binding: u32,
    pub mask: u16,
}

// Kind 2's.
#[derive(Clone, Copy)]
pub struct GeometryNumbers {
    pub shader: u16,
    pub index_count: u32,
    pub triangle_count: u32,
    pub vertex_count: u16,
    pub stride: u16,
}
