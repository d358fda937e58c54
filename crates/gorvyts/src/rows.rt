// What the pool of an image is: its numbers, the share of a device and the report on it, its devices and its
// intervals.
ghost use Rattle.image_rows.specs.Promises.{Numbered, Shared, Reported, Listed, device_numbers, interval_numbers};

// The numbers of a pool; answer: range, limit, number of devices, number of intervals. 17 for an answer of
// under four places; 14 to 16 as of `gorvyts_check`.
#[unsafe(no_mangle)]
pub extern "C" fn gorvyts_numbers(image: &[u8], answer: &mut [u64]) -> u32
    ensures { Numbered image.now answer.old (record { number = result; places = answer.new }) }
{
    image_rows::numbers(image, &mut *answer)
}

// The share of a device; answer: its points. 17 for an answer without a place; 14 to 16 as of `gorvyts_check`; 2
// for an id outside 1 to 65,535; 5 where it is absent.
#[unsafe(no_mangle)]
pub extern "C" fn gorvyts_share(image: &[u8], id: u64, answer: &mut [u64]) -> u32
    ensures { Shared image.now id answer.old (record { number = result; places = answer.new }) }
{
    image_rows::share(image, id, &mut *answer)
}

// The report on a device; answer: R × c divided by C as a whole number, the remainder; difference: share × C − R × c.
// 17 for an answer of under two places; 14 to 16 as of `gorvyts_check`; 2 for an id outside 1 to 65,535; 5
// where it is absent.
#[unsafe(no_mangle)]
pub extern "C" fn gorvyts_report(
    image: &[u8],
    id: u64,
    answer: &mut [u64],
    difference: &mut i64,
) -> u32
    ensures { Reported image.now id answer.old difference.old
        (record { number = result; places = answer.new; difference = difference.new }) }
{
    image_rows::report(image, id, &mut *answer, &mut *difference)
}

// The devices by rising id, three numbers each: id, capacity, share. 14 to 16 as of `gorvyts_check`; 17 where
// there are too few places; then all stays.
#[unsafe(no_mangle)]
pub extern "C" fn gorvyts_devices(image: &[u8], rows: &mut [u64]) -> u32
    ensures { Listed device_numbers image.now rows.old (record { number = result; places = rows.new }) }
{
    image_rows::devices(image, &mut *rows)
}

// The intervals by rising start, three numbers each: start, length, owner. 14 to 16 as of `gorvyts_check`; 17
// where there are too few places; then all stays.
#[unsafe(no_mangle)]
pub extern "C" fn gorvyts_intervals(image: &[u8], rows: &mut [u64]) -> u32
    ensures { Listed interval_numbers image.now rows.old (record { number = result; places = rows.new }) }
{
    image_rows::intervals(image, &mut *rows)
}
