// The call for a period file: its answer, and its rows in two lent tables of numbers (rules 7.1, 7.2, 8.7, 8.8 and 10.1 to 10.4).
// `settling` settles the period; here the room in the tables is tested, and the accounts of plants and segments become rows.
// The promise of `quantify` is an equation with `quantified` of `accounts`, which says all rules up to 8.8 at once.
#![tactic(auto)]

pub mod call;
pub mod room;
pub mod rows;

pub use crate::call::{Quantified, quantify};
pub use crate::room::answer_with_tables;
pub use crate::rows::{PLANT_NUMBERS, Row, SEGMENT_NUMBERS, plant_row, segment_row};
