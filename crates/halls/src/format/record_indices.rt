// What the record of a geometry's indices is made of: indices as they lie in the sections, or as a caller lends them.
ghost use Rattle.std.specs.Prelude.{◌≡◌, ◌+◌, ◌*◌, ◌^◌, ◌<◌, ◌≤◌, length};
ghost use Rattle.sections.specs.Edit.{overwrite};
ghost use Rattle.vertices.specs.Runs.{run};
ghost use Rattle.halls.specs.List.{Indices};
ghost use Rattle.halls.specs.Inner.NewIndices.{indices_of};

use crate::format::fields::set_u32;
use crate::read::parts::StoredIndices;
use crate::read::view::IndexWidth;
use crate::read::widen::{put_copied, put_widened};

// The count that the record says, and how many indices it holds.
#[derive(Clone, Copy)]
pub struct IndexCounts {
    pub count: u32,
    pub held: u32,
}

pub trait RecordIndices {
    ghost indices: { Self → Indices };

    fn counts(&self) -> IndexCounts
        requires { length (indices self.now).items < 2 ^ 30 }
        ensures { (result.count ≡ (indices self.now).count) × (result.held ≡ length (indices self.now).items) };

    // Four bytes each.
    fn put_items(&self, out: &mut [u8], at: usize)
        requires { at + 4 * length (indices self.now).items ≤ length out.old }
        ensures { out.new ≡ overwrite out.old at (run 4 (indices self.now).items) };
}

impl<'a> RecordIndices for StoredIndices<'a> {
    ghost indices = { λ i. i };

    fn counts(&self) -> IndexCounts {
        IndexCounts {
            count: self.count(),
            held: self.held(),
        }
    }

    fn put_items(&self, out: &mut [u8], at: usize) {
        if let Some(items) = self.view.items {
            match items.width {
                IndexWidth::Two => put_widened(out, at, self.bytes),
                IndexWidth::Four => put_copied(out, at, self.bytes),
            }
        }
    }
}

impl<'a> RecordIndices for &'a [u32] {
    ghost indices = { λ s. indices_of s.now };

    fn counts(&self) -> IndexCounts {
        let count = self.len() as u32;
        IndexCounts { count, held: count }
    }

    fn put_items(&self, out: &mut [u8], at: usize) {
        for (i, index) in self.iter().enumerate() {
            set_u32(out, at + i * 4, *index);
        }
    }
}
