// What the programs share that write a file from typed text: every step but the tests of the kind of file (rule 16.5).
#![tactic(auto)]

pub mod answer;
pub mod listing;
pub mod on_text;
pub mod room;

pub use crate::answer::{Kind, put_answer, put_fault, put_written};
pub use crate::listing::{Fault, list_text};
pub use crate::room::{list_room, text_room};
