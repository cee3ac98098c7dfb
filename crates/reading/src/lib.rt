// Reading a period file: from its bytes to its records, or to the first reason to refuse it (rules 2.2 to 2.9, 8.1 to 8.4 and 8.9).
//
// The numbers are taken in their order: the header, the plants, the segments, the lines, and then the end of the file.
// Each number is tested before the next one is taken. A caller reads one record after another and keeps what it needs of each.
#![tactic(auto)]

pub mod header;
pub mod kinds;
pub mod record;
pub mod whole;

pub use crate::header::{header_of, read_header};
pub use crate::kinds::{read_line, read_plant, read_segment};
pub use crate::record::{read_record, read_records};
pub use crate::whole::verdict;
