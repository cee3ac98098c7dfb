// A period file settled, before any table is looked at: the answer, and what the rows are made of (rules 4.1 to 6.2, 8.1 to 8.6 and 8.10).
// The file is gathered, which reads it and adds up its lines, and then the segments have their turns in rising number.
// What each step has to give is defined in `accounts`; the promise of `settle` is an equation with that (specs/Settled.antt).
#![tactic(auto)]

pub mod account;
mod arithmetic;
mod charges;
mod flow;
pub mod settling;

pub use crate::account::{PlantAccount, SegmentAccount};
pub use crate::settling::{Settled, settle, settle_into};
