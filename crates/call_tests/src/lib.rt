//! What is tested of whole calls and the built program does not show: devices in memory that fail
//! at one call or fill up, sources that always give, sinks that only count, the statuses of all
//! outcomes, and reports by waves of slots. What calls answer to texts stands in `checks/calls`.
//!
//! The crate has tests alone, and nothing stands on it.
#![tactic(auto)]

// how a row is judged
#[cfg(test)]
mod rows;

// the rows
#[cfg(test)]
mod devices;
#[cfg(test)]
mod section_devices;
#[cfg(test)]
mod slot_reports;
