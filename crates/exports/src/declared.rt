// A declaration of its flags and types. Its other numbers are not looked at in decoding.
ghost use Rattle.std.specs.Prelude.{◌≡◌};
ghost use Rattle.exports.specs.Passed.{declared};

use vertices::VertexDeclaration;

pub fn declaration(flags: u32, types: u64) -> VertexDeclaration
    ensures { result ≡ declared flags types }
{
    VertexDeclaration {
        flags,
        types,
        ..Default::default()
    }
}
