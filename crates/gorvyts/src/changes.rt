// Changes of the pool that an image describes.
ghost use Rattle.slicing.specs.Changes as Changes;
ghost use Rattle.image_changes.specs.Promises.{Changed};

use calls::Call;
use image_changes::change_image;

// Adds a device; the new image goes to `next`, the moves, four numbers each, to `list`; answer: the length
// of the new image, the moved points, the number of moves. 14 to 16 as of `gorvyts_check`; 2 for an id
// outside 1 to 65,535 or a capacity outside 1 to 16,000,000; 4 where the id is present; 6 where 256
// devices are; 8 where the new table has over M intervals; 9 where the list has too few places; 17
// where the new image does not fit.
#[unsafe(no_mangle)]
pub extern "C" fn gorvyts_add(
    image: &[u8],
    id: u64,
    capacity: u64,
    next: &mut [u8],
    list: &mut [u64],
    answer: &mut [u64],
) -> u32
    ensures { Changed image.now (Changes.add id capacity) next.old list.old answer.old
        (record { number = result; image = next.new; list = list.new; answer = answer.new }) }
{
    change_image(
        image,
        Call::Add(id, capacity),
        &mut *next,
        &mut *list,
        &mut *answer,
    )
}

// Removes a device, as `gorvyts_add` adds one. 2 for an id outside 1 to 65,535; 5 where it is absent; 7
// where it is the only one; 14 to 16, 8, 9 and 17 as of an add.
#[unsafe(no_mangle)]
pub extern "C" fn gorvyts_remove(
    image: &[u8],
    id: u64,
    next: &mut [u8],
    list: &mut [u64],
    answer: &mut [u64],
) -> u32
    ensures { Changed image.now (Changes.remove id) next.old list.old answer.old
        (record { number = result; image = next.new; list = list.new; answer = answer.new }) }
{
    change_image(
        image,
        Call::Remove(id),
        &mut *next,
        &mut *list,
        &mut *answer,
    )
}

// Gives a device another capacity, as `gorvyts_add` adds one. 5 where it is absent; 14 to 16, 2, 8, 9 and
// 17 as of an add.
#[unsafe(no_mangle)]
pub extern "C" fn gorvyts_resize(
    image: &[u8],
    id: u64,
    capacity: u64,
    next: &mut [u8],
    list: &mut [u64],
    answer: &mut [u64],
) -> u32
    ensures { Changed image.now (Changes.resize id capacity) next.old list.old answer.old
        (record { number = result; image = next.new; list = list.new; answer = answer.new }) }
{
    change_image(
        image,
        Call::Resize(id, capacity),
        &mut *next,
        &mut *list,
        &mut *answer,
    )
}
