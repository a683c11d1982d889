// The two sections of a drawable, both within the limit.
ghost use Rattle.sections.specs.Address.{sections_of};
ghost use Rattle.halls.specs.Inner.Small.{Small};

use sections::ResReader;

#[derive(Clone, Copy)]
pub struct Limited<'b, 'a> {
    pub reader: &'b ResReader<'a>,
    ghost small: { Small (sections_of reader.now) },
}
