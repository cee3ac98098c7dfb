// The period file: its records, their limits, and the tests of their fields (rules 2.2 to 2.9, 3.1, 3.2 and 9.1).
//
// A field is tested by its index in the record and by numbers, not bytes. The definitions in specs/ say what a file has to hold,
// and in which order it is tested.
#![tactic(auto)]

pub mod class;
pub mod counts;
pub mod header;
pub mod limits;
pub mod line;
pub mod plant;
pub mod record;
pub mod segment;

pub use crate::class::Class;
pub use crate::counts::Counts;
pub use crate::header::Header;
pub use crate::limits::Limits;
pub use crate::line::Line;
pub use crate::plant::Plant;
pub use crate::record::{Among, MOST_FIELDS, Record};
pub use crate::segment::Segment;
