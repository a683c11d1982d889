// Vertex declarations: 16 bytes that say which components a vertex has, and of which types.
ghost use Rattle.std.specs.Prelude.{◌≡◌, ◌+◌, ◌≤◌, length};
ghost use Rattle.sections.specs.Edit.{overwrite, fits, Edited};
ghost use Rattle.vertices.specs.Declaration.{declaration_at, declaration_bytes, position_only, components_of, component_of, declaration_id, total_size};
ghost use Rattle.vertices.specs.Types.{index_of};

use crate::components::Components;
use crate::types::{VertexComponent, VertexComponentType, VertexSemantic};

// Bit i of flags says that there is a component of semantic i; its type is the i-th nibble of types.
#[derive(Clone, Copy, Debug, Default, PartialEq, Eq)]
pub struct VertexDeclaration {
    pub flags: u32,
    pub stride: u16,
    pub unknown_6h: u8,
    pub count: u8,
    pub types: u64,
}

// A field that does not end inside raw is 0.
pub fn read_declaration(raw: &[u8], off: usize) -> VertexDeclaration
    ensures { result ≡ declaration_at raw.now off }
{
    if raw.len() < off {
        return VertexDeclaration::default();
    }
    VertexDeclaration {
        flags: sections::u32_le(raw, off),
        stride: sections::u16_le(raw, off + 4),
        unknown_6h: sections::u8_le(raw, off + 6),
        count: sections::u8_le(raw, off + 7),
        types: sections::u64_le(raw, off + 8),
    }
}

// False, with nothing changed, where the 16 bytes do not fit. A bool, not a Result: there is one reason, and callers that know the room drop the answer.
pub fn write_declaration(buf: &mut [u8], off: usize, d: VertexDeclaration) -> bool
    ensures { Edited (fits buf.old off 16) buf.old off (declaration_bytes d) result buf.new }
{
    if !sections::ends_inside(off, 16, buf.len()) {
        return false;
    }
    put_declaration(buf, off, d);
    true
}

// To a place where the 16 bytes are known to fit.
fn put_declaration(buf: &mut [u8], off: usize, d: VertexDeclaration)
    requires { off + 16 ≤ length buf.old }
    ensures { buf.new ≡ overwrite buf.old off (declaration_bytes d) }
{
    sections::put_u32_le(buf, off, d.flags);
    sections::put_u16_le(buf, off + 4, d.stride);
    sections::put_u8_le(buf, off + 6, d.unknown_6h);
    sections::put_u8_le(buf, off + 7, d.count);
    sections::put_u64_le(buf, off + 8, d.types);
}

impl VertexDeclaration {
    // The declaration used where a resource stores none: a Float3 position, with the buffer's own stride.
    pub fn position_only(stride: u16) -> Self
        ensures { result ≡ position_only stride }
    {
        Self {
            flags: 1,
            stride,
            count: 1,
            types: 6,
            ..Default::default()
        }
    }

    // The type nibbles of the set flags 0 to 15, each at its own place. A loop: of `.map(..).sum()` was not proved that each shift and each sum fits.
    pub fn declaration_id(self) -> u64
        ensures { result ≡ declaration_id self }
    {
        let mut id = 0;
        for component in self.components() {
            let nibble = u64::from(component.component_type.nibble());
            id += nibble << (4 * component.semantic_index);
        }
        id
    }

    // The components of the set flags 0 to 15, in rising order. The stored stride and count are not used.
    pub fn components(self) -> Components
        ensures { result ≡ components_of self }
    {
        Components::new(self.flags, self.types)
    }

    // The component of a semantic's number.
    pub fn component(self, index: u64) -> Option<VertexComponent>
        ensures { result ≡ component_of self index }
    {
        self.components()
            .find(|component| u64::from(component.semantic_index) == index)
    }

    // The same for a semantic.
    pub fn component_of(self, semantic: VertexSemantic) -> Option<VertexComponent>
        ensures { result ≡ component_of self (index_of semantic) }
    {
        self.component(u64::from(semantic.index()))
    }

    // The bytes of all components. A loop of its own over all flags, which the compiler unrolls: by a sum over the components the check of
    // a hall of small geometries takes 1.16 times as long, and 1.06 is the most that docs/PERFORMANCE.md allows it.
    pub fn size_in_bytes(self) -> u16
        ensures { result ≡ total_size self }
    {
        let mut flags = self.flags;
        let mut types = self.types;
        let mut total: u16 = 0;
        for _index in 0..16u8 {
            if flags % 2 == 1 {
                let component_type = VertexComponentType::from_nibble((types % 16) as u8);
                total += u16::from(component_type.size_in_bytes());
            }
            flags /= 2;
            types /= 16;
        }
        total
    }
}
