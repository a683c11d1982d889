// Lists behind a pointer: the bytes of their elements.
ghost use Rattle.std.specs.Prelude.{◌≡◌};
ghost use Rattle.std.specs.Option.{option_copied};
ghost use Rattle.sections.specs.Address.{sections_of};
ghost use Rattle.halls.specs.Inner.Measure.{list_bytes};

use sections::ResReader;

// The bytes of `count` elements of `width` bytes each: none where the count or the pointer is 0, None where they do not resolve. Width, count and pointer are
// three arguments, here and where indices are viewed, as `locate_list` has them from the original Rust.
pub fn list_bytes<'a>(
    reader: &ResReader<'a>,
    width: u8,
    count: u32,
    pointer: u64,
) -> Option<&'a [u8]>
    ensures { option_copied result ≡ list_bytes (sections_of reader.now) width count pointer }
{
    if count == 0 || pointer == 0 {
        return Some(&[]);
    }
    reader.resolve(pointer, count as usize * usize::from(width))
}
