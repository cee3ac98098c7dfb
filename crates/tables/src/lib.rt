// The tables that the historian lends, which are bytes: the rows of plants and segments are written into them (rules 7.1, 7.2 and 10.5).
// `period` makes the numbers of a row; here each becomes eight bytes, at its place in a table.
#![tactic(auto)]

pub mod rows;

pub use crate::rows::{write_plants, write_segments};
