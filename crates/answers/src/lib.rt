// Results in the first places of an answer.
#![tactic(auto)]

ghost use Rattle.std.specs.Prelude.{◌≡◌, ◌++◌, ◌≤◌, length, drop};

pub fn put<const N: usize>(answer: &mut [u64], values: [u64; N])
    requires { N ≤ length answer.old }
    ensures { answer.new ≡ values.entry ++ drop N answer.old }
{
    answer[..N].copy_from_slice(&values);
}
