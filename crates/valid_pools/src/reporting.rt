// The call for a report: what a device is exactly due, and how far its share lies from that.
ghost use Rattle.std.specs.Prelude.{◌≡◌, IfOk};
ghost use Rattle.valid_pools.specs.Finding.{Measured, with_device, report_from};
ghost use Rattle.valid_pools.specs.Promises.{report_reply, Reported};

use crate::DeviceReport;
use crate::finding::{Found, find_in};
use pools::Pool;
use refusals::Refusal;

// The report on a device that was found, or its refusal.
pub fn report_of(device: Result<Found, Refusal>) -> Result<DeviceReport, Refusal>
    requires { IfOk device Measured }
    ensures { result ≡ with_device report_from device }
{
    let device = device?;
    let due = device.range * device.capacity;
    let whole = due / device.sum;
    let remainder = due % device.sum;
    let held = device.points * device.sum;
    Ok(DeviceReport {
        whole,
        remainder,
        difference: held as i64 - due as i64,
    })
}

// The number and the values of a report, as document 01 has them: 0 and the report, or the refusal number and zeros.
pub fn report_reply(answer: Result<DeviceReport, Refusal>) -> (u32, DeviceReport)
    ensures { record { number = result.0; whole = result.1.whole; remainder = result.1.remainder; difference = result.1.difference } ≡ report_reply answer }
{
    match answer {
        Ok(report) => (0, report),
        Err(refusal) => {
            let none = DeviceReport {
                whole: 0,
                remainder: 0,
                difference: 0,
            };
            (u32::from(refusal), none)
        }
    }
}

// The report on a device. 2 for a pool that is not valid or an id outside 1 to 65,535; 5 where it is absent.
pub fn report(pool: Pool, id: u64) -> Result<DeviceReport, Refusal>
    ensures { Reported pool id result }
{
    report_of(find_in(pool, id))
}
