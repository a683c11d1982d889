// Items of a list, one behind the other, as parts of the image.
ghost use Rattle.std.specs.Prelude.{List, ℕ, ◌+◌, ◌≤◌, length};
ghost use Rattle.images.specs.Fronts.{ItemsFollow, Room, RoomBehind, WrittenItem, WrittenItems, here};

use crate::parts::{Measured, address_of, put_gap};
use sections::put_u64_le;

// What a list has at its front: a geometry, or a model and its geometries.
pub trait Item {
    // Of the bytes that begin with it: its length there, its length in the image, and the bytes of its image where that begins at an offset.
    ghost len: { List ℕ → ℕ };

    ghost size: { List ℕ → ℕ };

    ghost image: { ℕ → List ℕ → List ℕ };

    // What else `put_items` asks of the first k items of such bytes.
    ghost few: { ℕ → List ℕ → Type 0 };

    fn put(out: &mut [u8], at: usize, front: &[u8]) -> Measured
        requires { (len front.now ≤ length front.now) × (few 1 front.now) × (Room at (size front.now) out.old) }
        ensures { WrittenItem here len size image front.now at out.old result out.new };
}

// Items from the front of a list on, and where they go: their addresses to `table`, their images from `at` on.
#[derive(Clone, Copy)]
pub struct Items<'a> {
    pub list: &'a [u8],
    pub count: usize,
    pub table: usize,
    pub at: usize,
}

// The place in the list is counted beside the `for`: how long an item is, its writing tells.
pub fn put_items<I: Item>(out: &mut [u8], items: Items<'_>) -> Measured
    requires { (ItemsFollow I.len I.size I.image I.few) × (RoomBehind I.len I.size items out.old) × (I.few items.count items.list.now) }
    ensures { WrittenItems here I.len I.size I.image items.entry out.old result out.new }
{
    let mut place = 0;
    let mut next = items.at;
    for i in 0..items.count {
        put_u64_le(out, items.table + 8 * i, address_of(next));
        let m = I::put(out, next, &items.list[place..]);
        place += m.length;
        next += m.size;
    }
    put_gap(out, items.table, 8 * items.count);
    Measured {
        length: place,
        size: next - items.at,
    }
}
