// Names of types and semantics, and the number of an unknown one.
use std::io::{self, Write};
use vertices::{VertexComponentType, VertexSemantic};

pub fn component_type(out: &mut impl Write, t: VertexComponentType) -> io::Result<()> {
    match t {
        VertexComponentType::Unknown(nibble) => write!(out, " Unknown {nibble:x}"),
        named => write!(out, " {named:?}"),
    }
}

pub fn semantic(out: &mut impl Write, s: VertexSemantic) -> io::Result<()> {
    match s {
        VertexSemantic::Unknown(index) => write!(out, " Unknown {index:x}"),
        named => write!(out, " {named:?}"),
    }
}
