// The numbers of an image's pool, the share of one device and the report on it.
ghost use Rattle.image_rows.specs.Promises.{Numbered, Shared, Reported};

use crate::finding::find_on;
use answers::put;
use refusals::Refusal;
use valid_pools::{report_of, report_reply};

// Range, limit, number of devices, number of intervals. 17 for an answer of under four places; 14 to 16 as
// of a read.
pub fn numbers(image: &[u8], answer: &mut [u64]) -> u32
    ensures { Numbered image.now answer.old (record { number = result; places = answer.new }) }
{
    if answer.len() < 4 {
        return u32::from(Refusal::ShortBuffer);
    }
    let made = images::read(image);
    if made.refusal > 0 {
        put(answer, [0; 4]);
        return made.refusal;
    }
    let pool = made.pool;
    put(
        answer,
        [
            pool.range,
            u64::from(pool.limit),
            pool.devices as u64,
            pool.intervals as u64,
        ],
    );
    0
}

// The share of a device. 17 for an answer without a place; 14 to 16 as of a read; 2 for an id outside 1 to
// 65,535; 5 where it is absent.
pub fn share(image: &[u8], id: u64, answer: &mut [u64]) -> u32
    ensures { Shared image.now id answer.old (record { number = result; places = answer.new }) }
{
    if answer.is_empty() {
        return u32::from(Refusal::ShortBuffer);
    }
    match find_on(image, id) {
        Ok(device) => {
            put(answer, [device.points]);
            0
        }
        Err(refusal) => {
            put(answer, [0]);
            u32::from(refusal)
        }
    }
}

// The report on a device: the whole number and the remainder in `answer`, and the difference. 17 for an
// answer of under two places; 14 to 16 as of a read; 2 for an id outside 1 to 65,535; 5 where it is absent.
pub fn report(image: &[u8], id: u64, answer: &mut [u64], difference: &mut i64) -> u32
    ensures { Reported image.now id answer.old difference.old
        (record { number = result; places = answer.new; difference = difference.new }) }
{
    if answer.len() < 2 {
        return u32::from(Refusal::ShortBuffer);
    }
    let (number, told) = report_reply(report_of(find_on(image, id)));
    put(answer, [told.whole, told.remainder]);
    *difference = told.difference;
    number
}
