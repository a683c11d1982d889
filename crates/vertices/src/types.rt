// What a vertex is made of: component types, semantics, components.
ghost use Rattle.std.specs.Prelude.{◌≡◌};
ghost use Rattle.vertices.specs.Types.{component_type_of, nibble_of, size_of, count_of, semantic_of, index_of};

// The type of a component. The declaration stores it as a number of 4 bits.
#[derive(Clone, Copy, Debug, PartialEq, Eq)]
pub enum VertexComponentType {
    Nothing,
    Half2,
    Float,
    Half4,
    FloatUnknown,
    Float2,
    Float3,
    Float4,
    UByte4,
    Colour,
    Rgba8Snorm,
    Unknown(u8),
}

// What a component is for. Its number is that of its flag.
#[derive(Clone, Copy, Debug, PartialEq, Eq)]
pub enum VertexSemantic {
    Position,
    BlendWeights,
    BlendIndices,
    Normal,
    Colour0,
    Colour1,
    TexCoord0,
    TexCoord1,
    TexCoord2,
    TexCoord3,
    TexCoord4,
    TexCoord5,
    TexCoord6,
    TexCoord7,
    Tangent,
    Binormal,
    Unknown(u8),
}

// One component of every vertex, with the fields of the original: offset and size are in bytes, component_count is its number of values.
#[derive(Clone, Copy, Debug, PartialEq, Eq)]
pub struct VertexComponent {
    pub semantic: VertexSemantic,
    pub semantic_index: u8,
    pub component_type: VertexComponentType,
    pub offset: u16,
    pub size: u8,
    pub component_count: u8,
}

impl VertexComponentType {
    #[tactic(auto, using(crate::proofs::TypeLaws::unknown_type), unfolding(crate::specs::Types::component_type_of))]
    pub fn from_nibble(value: u8) -> Self
        ensures { result ≡ component_type_of value }
    {
        match value {
            0 => Self::Nothing,
            1 => Self::Half2,
            2 => Self::Float,
            3 => Self::Half4,
            4 => Self::FloatUnknown,
            5 => Self::Float2,
            6 => Self::Float3,
            7 => Self::Float4,
            8 => Self::UByte4,
            9 => Self::Colour,
            10 => Self::Rgba8Snorm,
            _ => Self::Unknown(value),
        }
    }

    pub fn nibble(self) -> u8
        ensures { result ≡ nibble_of self }
    {
        match self {
            Self::Nothing => 0,
            Self::Half2 => 1,
            Self::Float => 2,
            Self::Half4 => 3,
            Self::FloatUnknown => 4,
            Self::Float2 => 5,
            Self::Float3 => 6,
            Self::Float4 => 7,
            Self::UByte4 => 8,
            Self::Colour => 9,
            Self::Rgba8Snorm => 10,
            Self::Unknown(value) => value,
        }
    }

    // 0 of a type that has no size, as in the original: a component of it takes no room, and sums of sizes go on.
    pub fn size_in_bytes(self) -> u8
        ensures { result ≡ size_of self }
    {
        match self {
            Self::Half2 | Self::Float | Self::UByte4 | Self::Colour | Self::Rgba8Snorm => 4,
            Self::Half4 | Self::Float2 => 8,
            Self::Float3 => 12,
            Self::Float4 => 16,
            Self::Nothing | Self::FloatUnknown | Self::Unknown(_) => 0,
        }
    }

    // The number of values.
    pub fn component_count(self) -> u8
        ensures { result ≡ count_of self }
    {
        match self {
            Self::Float => 1,
            Self::Half2 | Self::Float2 => 2,
            Self::Float3 => 3,
            Self::Half4 | Self::Float4 | Self::UByte4 | Self::Colour | Self::Rgba8Snorm => 4,
            Self::Nothing | Self::FloatUnknown | Self::Unknown(_) => 0,
        }
    }
}

impl VertexSemantic {
    #[tactic(auto, using(crate::proofs::TypeLaws::unknown_semantic), unfolding(crate::specs::Types::semantic_of))]
    pub fn from_index(index: u8) -> Self
        ensures { result ≡ semantic_of index }
    {
        match index {
            0 => Self::Position,
            1 => Self::BlendWeights,
            2 => Self::BlendIndices,
            3 => Self::Normal,
            4 => Self::Colour0,
            5 => Self::Colour1,
            6 => Self::TexCoord0,
            7 => Self::TexCoord1,
            8 => Self::TexCoord2,
            9 => Self::TexCoord3,
            10 => Self::TexCoord4,
            11 => Self::TexCoord5,
            12 => Self::TexCoord6,
            13 => Self::TexCoord7,
            14 => Self::Tangent,
            15 => Self::Binormal,
            _ => Self::Unknown(index),
        }
    }

    // The number of its flag.
    pub fn index(self) -> u8
        ensures { result ≡ index_of self }
    {
        match self {
            Self::Position => 0,
            Self::BlendWeights => 1,
            Self::BlendIndices => 2,
            Self::Normal => 3,
            Self::Colour0 => 4,
            Self::Colour1 => 5,
            Self::TexCoord0 => 6,
            Self::TexCoord1 => 7,
            Self::TexCoord2 => 8,
            Self::TexCoord3 => 9,
            Self::TexCoord4 => 10,
            Self::TexCoord5 => 11,
            Self::TexCoord6 => 12,
            Self::TexCoord7 => 13,
            Self::Tangent => 14,
            Self::Binormal => 15,
            Self::Unknown(index) => index,
        }
    }
}
