// The call for a share: of a valid pool, what the table gives.
ghost use Rattle.valid_pools.specs.Promises.{Shared};

use crate::finding::find_in;
use pools::Pool;
use refusals::Refusal;

// The share of a device. 2 for a pool that is not valid or an id outside 1 to 65,535; 5 where it is absent.
#[tactic(auto, using(crate::proofs::DeviceAnswers::shared_of))]
pub fn share(pool: Pool, id: u64) -> Result<u64, Refusal>
    ensures { Shared pool id result }
{
    let device = find_in(pool, id)?;
    Ok(device.points)
}
