// A period file gathered: its records, with what its owners emit, before any segment has its turn (rules 2.1 to 4.4, 8.1 to 8.5 and 8.10).
// The file is read part by part, and each line is added to its owner's totals as it comes.
// What each step has to give is defined in `records` and `accounts`; the promise of `gather` is an equation with that (specs/Gathered.antt).
#![tactic(auto)]

pub mod emissions;
pub mod gathering;
pub mod totals;

pub use crate::emissions::Emissions;
pub use crate::gathering::{Gathered, gather};
