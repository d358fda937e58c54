// An owner as a number in the first place of an answer.
ghost use Rattle.std.specs.Prelude.{◌≡◌, ◌≤◌, length};
ghost use Rattle.lookup_numbers.specs.Told.{owner_told};

use answers::put;
use refusals::Refusal;

// Puts an owner, or 0 for a refusal, and gives the refusal number or 0.
// A number and no `Result`: the calls of the C interface give it back as it is.
pub fn put_owner(answer: &mut [u64], found: Result<u64, Refusal>) -> u32
    requires { 1 ≤ length answer.old }
    ensures { record { number = result; places = answer.new } ≡ owner_told answer.old found }
{
    match found {
        Ok(id) => {
            put(answer, [id]);
            0
        }
        Err(refusal) => {
            put(answer, [0]);
            u32::from(refusal)
        }
    }
}
