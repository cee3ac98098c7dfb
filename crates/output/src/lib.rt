// What programs print: a text is put together piece by piece, and then handed to standard output (rules 11.1, 11.2 and 11.7).
//
// Each piece is put behind the others, as far as there is room: in a `Text`, which has room of its own and keeps the end, or in a lent buffer at a byte,
// by a function that answers the byte behind the piece. An end past the room says that text is missing.
#![tactic(auto)]

mod bytes;
mod lines;
mod printing;
mod text;

pub use crate::bytes::{BYTE_TEXT, put_bytes};
pub use crate::lines::{put_line, put_refusal, put_rows};
pub use crate::printing::{complain, print};
pub use crate::text::{MOST_SPACED, Text, put_number, put_spaced, put_words};
