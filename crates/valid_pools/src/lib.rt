// Whether a pool is valid, and a valid pool opened. Offered: the share of a device, and the report on it. A pool
// is decided valid once, where it comes in; inside, validity is a fact that is carried.
#![tactic(auto)]

mod finding;
mod opening;
mod reporting;
mod sharing;

pub use finding::{Found, find_device};
pub use opening::{open, open_cleared, valid};
pub use reporting::{report, report_of, report_reply};
pub use sharing::share;

// A report: R × c divided by C as a whole number; the remainder; share × C − R × c.
#[derive(Clone, Copy)]
pub struct DeviceReport {
    pub whole: u64,
    pub remainder: u64,
    pub difference: i64,
}
