// The test program: for each case on standard input it prints a line, what number reading or the reading of a period file answers.
// A case is its kind in 1 byte, the asked byte in 8 and the file's length in 4, both least significant byte first, and then the file.
// Kind N asks what number reading reports at that byte: "N value offset next", or for a fault "R refusal byte offset". Kind P asks how the
// file is read, whatever that byte: "A" and its numbers in file order, as the records hold them, or for a refused file "R refusal place offset".
// Input that is no whole case is said on standard error, and ends the run.
#![tactic(auto)]

mod case;
mod numbers;
mod readings;

use crate::case::{Head, Kind, next_head};
use crate::numbers::put_found;
use crate::readings::put_reading;
use input::read_input;
use output::{Text, complain, print};

// The most bytes of a line.
const MOST_LINE: usize = 65_536;

// The text of a case's line.
pub(crate) type LineText = Text<MOST_LINE>;

// The rooms, for a case's file and for its line, are made once and lent to every case.
fn main(rt: HostRuntime) {
    let mut room = io::large_buffer();
    let mut text = LineText::new();
    answer_all(&rt, &mut room, &mut text);
}

// Answers all cases. A proved loop has to end, and the input may not: so turns are counted, up to a number that no run reaches.
fn answer_all(rt: &HostRuntime, room: &mut [u8], text: &mut LineText) {
    for _ in 0..u64::MAX {
        if answer(rt, room, text).is_none() {
            return;
        }
    }
}

// Answers the next case; nothing if that cannot be done, and the run ends.
fn answer(rt: &HostRuntime, room: &mut [u8], text: &mut LineText) -> Option<()> {
    let Head { kind, count } = next_head(rt)?;
    if room.len() < count {
        complain(rt, b"cases", b"a case's file is over 65536 bytes");
        return None;
    }
    take_file(rt, &mut room[..count])?;
    text.end = 0;
    put_answer(text, &room[..count], kind);
    print_line(rt, text)
}

// Reads a case's file, which is as long as what is lent; nothing if it is not whole.
fn take_file(rt: &HostRuntime, file: &mut [u8]) -> Option<()> {
    let bytes = read_input(rt, b"cases", file)?;
    if bytes < file.len() {
        complain(rt, b"cases", b"the input ends inside a case's file");
        return None;
    }
    Some(())
}

// Puts the line of a case, by what its kind asks of its file.
fn put_answer(text: &mut LineText, file: &[u8], kind: Kind) {
    match kind {
        Kind::Number { at } => put_found(text, file, at),
        Kind::Period => put_reading(text, file),
    }
}

// Prints the line that was put; nothing if it could not be written. A line that ends past the room is not whole, and not printed.
fn print_line(rt: &HostRuntime, text: &LineText) -> Option<()> {
    let Some(line) = text.whole() else {
        complain(rt, b"cases", b"a line is longer than there is room for");
        return None;
    };
    print(rt, b"cases", line)?;
    Some(())
}
