// Writing files from lists of plain numbers: a period file, or a meter's sheet (chapter 15 of the rules).
//
// A list is tested as its file would be when it is read, number by number, and the room in the buffer last. Only then is anything written, so
// a refusal leaves the buffer as it was. The tests of fields are those of the reader.
#![tactic(auto)]

mod bytes;
mod list;
pub mod period;
mod record;
pub mod sheet;

pub use crate::period::write_period;
pub use crate::sheet::write_sheet;
