// One number at a time. A float is passed and returned as its bits. The C interface has a function for each.
ghost use Rattle.std.specs.Prelude.{◌≡◌};
ghost use Rattle.vertices.specs.Declaration.{declaration_id};
ghost use Rattle.vertices.specs.Half.{f16_to_f32, f32_to_f16};
ghost use Rattle.vertices.specs.Normalised.{snorm8_to_f32, unorm8_to_f32, f32_to_snorm8, f32_to_unorm8, snorm_colour8};
ghost use Rattle.exports.specs.Passed.{declared};

use crate::declared::declaration;

#[unsafe(no_mangle)]
pub extern "C" fn calicofern_declaration_id(flags: u32, types: u64) -> u64
    ensures { result ≡ declaration_id (declared flags types) }
{
    declaration(flags, types).declaration_id()
}

#[unsafe(no_mangle)]
pub extern "C" fn calicofern_f16_to_f32(half: u16) -> u32
    ensures { result ≡ f16_to_f32 half }
{
    vertices::f16_to_f32(half)
}

#[unsafe(no_mangle)]
pub extern "C" fn calicofern_f32_to_f16(bits: u32) -> u16
    ensures { result ≡ f32_to_f16 bits }
{
    vertices::f32_to_f16(bits)
}

#[unsafe(no_mangle)]
pub extern "C" fn calicofern_snorm8_to_f32(byte: u8) -> u32
    ensures { result ≡ snorm8_to_f32 byte }
{
    vertices::snorm8_to_f32(byte)
}

#[unsafe(no_mangle)]
pub extern "C" fn calicofern_unorm8_to_f32(byte: u8) -> u32
    ensures { result ≡ unorm8_to_f32 byte }
{
    vertices::unorm8_to_f32(byte)
}

#[unsafe(no_mangle)]
pub extern "C" fn calicofern_f32_to_snorm8(bits: u32) -> u8
    ensures { result ≡ f32_to_snorm8 bits }
{
    vertices::f32_to_snorm8(bits)
}

#[unsafe(no_mangle)]
pub extern "C" fn calicofern_f32_to_unorm8(bits: u32) -> u8
    ensures { result ≡ f32_to_unorm8 bits }
{
    vertices::f32_to_unorm8(bits)
}

#[unsafe(no_mangle)]
pub extern "C" fn calicofern_snorm_colour8(bits: u32) -> u8
    ensures { result ≡ snorm_colour8 bits }
{
    vertices::snorm_colour8(bits)
}
