//! Counts of faults, and calls that are scheduled to fail.
//!
//! Each object at the program's edge, as a file or a device, counts its faults, so that a contract can say when an
//! error may come: only where the count rose. A count never falls, and stands still at its last value.
#![tactic(auto)]

mod count;
mod schedule;

pub use count::FaultCount;
pub use schedule::Schedule;
