// The models of a hall, as parts of the image.
ghost use Rattle.std.specs.Prelude.{◌≡◌, ◌+◌, ◌≤◌, length};
ghost use Rattle.sections.specs.Edit.{overwrite};
ghost use Rattle.halls.specs.Checks.{geometry_count};
ghost use Rattle.halls.specs.Fronts.{entries_at};
ghost use Rattle.halls.specs.ImageSize.{model_size};
ghost use Rattle.images.specs.Fronts.{front_model, model_length, model_numbers, models_from, image_limit, Room, WrittenModel};
ghost use Rattle.images.specs.Image.{model_block_bytes, model_image};

use crate::blocks::ModelBlock;
use crate::geometry::Geometry;
use crate::items::{Item, Items, put_items};
use crate::parts::{Measured, padded, pointer_to, put_copy};
use halls::entries_of;
use sections::{u16_le, u32_le};

pub struct Model;

impl Item for Model {
    ghost len = { model_length };

    ghost size = { λ s. model_size (front_model s) };

    ghost image = { λ at s. model_image at (front_model s) };

    ghost few = { λ k s. geometry_count (models_from k s) ≤ 16384 };

    fn put(out: &mut [u8], at: usize, front: &[u8]) -> Measured {
        put_model(out, at, front)
    }
}

// The model at the front, and its geometries.
fn put_model(out: &mut [u8], at: usize, front: &[u8]) -> Measured
    requires { (model_length front.now ≤ length front.now) × (entries_at front.now ≤ 16384) × (Room at (model_size (front_model front.now)) out.old) }
    ensures { WrittenModel front.now at out.old result out.new }
{
    let entries = entries_of(front);
    let behind = 12 + 2 * entries;
    let mapping = at + 0x30 + padded(8 * entries);
    let geometries = mapping + padded(2 * entries);
    put_model_numbers(out, at, front, entries, mapping);
    put_copy(out, mapping, &front[12..behind]);
    let items = Items {
        list: &front[behind..],
        count: entries,
        table: at + 0x30,
        at: geometries,
    };
    let inner = put_items::<Geometry>(out, items);
    Measured {
        length: behind + inner.length,
        size: geometries - at + inner.size,
    }
}

// Its block, with `entries` geometries and a mapping at `mapping`.
fn put_model_numbers(out: &mut [u8], at: usize, front: &[u8], entries: usize, mapping: usize)
    requires { (Room at 0x30 out.old) × (mapping ≤ image_limit) × (entries ≤ 16384) }
    ensures { out.new ≡ overwrite out.old at (model_block_bytes (model_numbers at entries mapping front.now)) }
{
    let block = ModelBlock {
        geometries: pointer_to(entries, at + 0x30),
        count: entries as u16,
        mapping: pointer_to(entries, mapping),
        binding: u32_le(front, 6),
        mask: u16_le(front, 10),
    };
    block.put(out, at);
}
