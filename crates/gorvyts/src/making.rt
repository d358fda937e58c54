// A pool from numbers, from a history or from an image.
ghost use Rattle.image_making.specs.Promises.{Checked, FreshStored, ReplayStored, Transcript};

// Whether the bytes are an image of a pool: 0, or 14 under 19 bytes or for another mark, 15 for another
// version, 16 for any other fault.
#[unsafe(no_mangle)]
pub extern "C" fn gorvyts_check(image: &[u8]) -> u32
    ensures { Checked image.now result }
{
    image_making::check(image)
}

// The image of a fresh pool; answer: its length. 2 where the range is not within 1 to 4,294,967,296 or the
// limit not within 1 to 4,096; 17 where the buffer is too short.
#[unsafe(no_mangle)]
pub extern "C" fn gorvyts_fresh(range: u64, limit: u64, image: &mut [u8], answer: &mut [u64]) -> u32
    ensures { FreshStored range limit image.old answer.old (record { number = result; image = image.new; answer = answer.new }) }
{
    image_making::fresh(range, limit, &mut *image, &mut *answer)
}

// The image of the pool that a history leaves, refused lines included; answer: its length. 2 for more than
// 65,536 bytes; 17 where the buffer is too short.
#[unsafe(no_mangle)]
pub extern "C" fn gorvyts_replay(text: &[u8], image: &mut [u8], answer: &mut [u64]) -> u32
    ensures { ReplayStored text.now image.old answer.old (record { number = result; image = image.new; answer = answer.new }) }
{
    image_making::replay(text, &mut *image, &mut *answer)
}

// What `slices` prints of a history; answer: its length. 17 for a buffer of less than 3,145,728 bytes.
#[unsafe(no_mangle)]
pub extern "C" fn gorvyts_transcript(text: &[u8], out: &mut [u8], answer: &mut [u64]) -> u32
    ensures { Transcript text.now out.old answer.old (record { number = result; image = out.new; answer = answer.new }) }
{
    image_making::transcript(text, &mut *out, &mut *answer)
}
