//! The texts of reports.
#![tactic(auto)]

mod reports;

pub use reports::{report, write, write_count, write_place, write_reason};
