// Text that people type, turned into a list of plain numbers (rules 16.1 to 16.4).
//
// A text is numbers in decimal with spaces between them, and remarks; any other byte is stray. Every text has an answer.
#![tactic(auto)]

pub mod reading;
mod scan;
pub mod starts;

pub use crate::reading::{Stray, read_text};
pub use crate::starts::number_start;
