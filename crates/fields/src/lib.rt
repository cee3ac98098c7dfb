// Files of numbers: how one is read field by field, and how it is answered (rules 2.1, 8.1 to 8.4 and 8.9).
//
// Everything that reads a file of numbers is built on this: a spot in the file, the number that is taken there, the reasons to
// refuse, the end. The layer above says what the fields of a file are and which values they allow.
#![tactic(auto)]

pub mod answer;
pub mod reason;
pub mod spot;
pub mod taking;

pub use crate::answer::{Answer, Refusal, refusal_number, refusal_offset, refusal_place, refused};
pub use crate::reason::Reason;
pub use crate::spot::Spot;
pub use crate::taking::{nothing_after, take};
