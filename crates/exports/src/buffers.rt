// The vertex buffer of a geometry, located and written as bytes. The C interface passes every number as an argument of its own, so that the function has eight.
ghost use Rattle.std.specs.Prelude.{◌≡◌, ◌+◌, ◌≤◌, length};
ghost use Rattle.sections.specs.Address.{sections};
ghost use Rattle.sections.specs.Edit.{overwrite};
ghost use Rattle.exports.specs.Buffers.{section_number, offset_of, stored_bytes, head_bytes, place_bytes, buffer_bytes, found_bytes, buffer_outcome};
ghost use Rattle.exports.specs.Told.{Answered, Told, fitting};

use crate::told::told;
use halls::{Refusal, room};
use sections::{Located, ResReader, put_u8_le, put_u16_le, put_u32_le, put_u64_le};
use vertices::{VertexBuffer, VertexDeclaration, write_declaration};

#[unsafe(no_mangle)]
pub extern "C" fn calicofern_vertex_buffer<'a>(
    system: &'a [u8],
    graphics: &'a [u8],
    va: u64,
    inline_pointer: u64,
    inline_count: u32,
    inline_stride: u16,
    out: &mut [u8],
    size: &mut u64,
) -> u8
    ensures { Told (buffer_outcome (sections system.now graphics.now) va inline_pointer inline_count inline_stride (length out.old)) out.old result out.new size.new }
{
    let reader = ResReader::new(system, graphics);
    let found = vertices::parse_vertex_buffer_at(
        &reader,
        va,
        inline_pointer,
        inline_count,
        inline_stride,
    );
    told(write_found(found, out), size)
}

fn write_found(found: Option<VertexBuffer>, out: &mut [u8]) -> Result<u64, Refusal>
    ensures { Answered (fitting (length out.old) (found_bytes found)) out.old result out.new }
{
    let Some(buffer) = found else {
        return Ok(0);
    };
    write_buffer(buffer, out)
}

fn write_buffer(buffer: VertexBuffer, out: &mut [u8]) -> Result<u64, Refusal>
    ensures { Answered (fitting (length out.old) (buffer_bytes buffer)) out.old result out.new }
{
    let needed = 32 + stored_length(buffer.declaration);
    room(10, out.len(), needed as u64)?;
    put_buffer(out, buffer);
    Ok(needed as u64)
}

// 32 bytes, and the declaration where one is stored.
fn put_buffer(out: &mut [u8], buffer: VertexBuffer)
    requires { 32 + length (stored_bytes buffer.declaration) ≤ length out.old }
    ensures { out.new ≡ overwrite out.old 0 (buffer_bytes buffer) }
{
    put_head(out, buffer);
    put_place(out, 23, buffer.data);
    put_stored(out, 32, buffer.declaration);
}

fn put_head(out: &mut [u8], buffer: VertexBuffer)
    requires { 23 ≤ length out.old }
    ensures { out.new ≡ overwrite out.old 0 (head_bytes buffer) }
{
    put_u8_le(out, 0, buffer.layout.number());
    put_u16_le(out, 1, buffer.vertex_stride);
    put_u32_le(out, 3, buffer.vertex_count);
    put_u64_le(out, 7, buffer.data_pointer);
    put_u64_le(out, 15, buffer.info_pointer);
}

fn put_place(out: &mut [u8], at: usize, place: Located)
    requires { at + 9 ≤ length out.old }
    ensures { out.new ≡ overwrite out.old at (place_bytes place) }
{
    let (section, offset) = place_numbers(place);
    put_u8_le(out, at, section);
    put_u64_le(out, at + 1, offset);
}

fn put_stored(out: &mut [u8], at: usize, declaration: Option<VertexDeclaration>)
    requires { at + length (stored_bytes declaration) ≤ length out.old }
    ensures { out.new ≡ overwrite out.old at (stored_bytes declaration) }
{
    if let Some(d) = declaration {
        write_declaration(out, at, d);
    }
}

#[tactic(auto, using(vertices::proofs::DeclarationLaws::declaration_length_lem))]
fn stored_length(declaration: Option<VertexDeclaration>) -> usize
    ensures { (result ≡ length (stored_bytes declaration)) × (result ≤ 16) }
{
    declaration.map_or(0, |_| 16)
}

// The section's number, and the offset in it.
fn place_numbers(place: Located) -> (u8, u64)
    ensures { (result.0 ≡ section_number place) × (result.1 ≡ offset_of place) }
{
    match place {
        Located::System(at) => (0, at as u64),
        Located::Graphics(at) => (1, at as u64),
    }
}
