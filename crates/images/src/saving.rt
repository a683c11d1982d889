// Save: the image of a hall (document 01, "Images").
ghost use Rattle.std.specs.Prelude.{◌≡◌, ◌≤◌, length};
ghost use Rattle.sections.specs.Edit.{overwrite};
ghost use Rattle.halls.specs.ImageSize.{image_size};
ghost use Rattle.images.specs.Fronts.{SoundList, SavedList, hall_of_list, model_count};
ghost use Rattle.images.specs.Image.{image};
ghost use Rattle.images.specs.Saving.{Saved};

use crate::blocks::put_header;
use crate::items::{Items, put_items};
use crate::model::Model;
use crate::parts::{padded, pointer_to};
use halls::{HallSize, Refusal, hall_size, room};

// The image of the hall in the first n bytes of `hall`, over the first bytes of `out`.
pub fn save(hall: &[u8], n: usize, out: &mut [u8]) -> Result<u64, Refusal>
    ensures { Saved hall.now n out.old result out.new }
{
    let size = hall_size(hall, n)?;
    save_list(&hall[..n], out, size)
}

// Of a sound list with its models and its image's bytes: check 20, and the image.
fn save_list(list: &[u8], out: &mut [u8], size: HallSize) -> Result<u64, Refusal>
    requires { (SoundList list.now) × (size.models ≡ model_count list.now) × (size.bytes ≡ image_size (hall_of_list list.now)) }
    ensures { SavedList (hall_of_list list.now) out.old result out.new }
{
    room(20, out.len(), size.bytes as u64)?;
    put_image(out, list, size.models);
    Ok(size.bytes as u64)
}

// The whole: header, model pointers, models.
fn put_image(out: &mut [u8], list: &[u8], models: usize)
    requires { (SoundList list.now) × (models ≡ model_count list.now) × (image_size (hall_of_list list.now) ≤ length out.old) }
    ensures { out.new ≡ overwrite out.old 0 (image (hall_of_list list.now)) }
{
    let first = 16 + padded(8 * models);
    put_header(out, pointer_to(models, 16), models as u16);
    let items = Items {
        list,
        count: models,
        table: 16,
        at: first,
    };
    put_items::<Model>(out, items);
}
