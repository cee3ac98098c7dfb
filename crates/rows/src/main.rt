// The program for a period file on standard input: it prints its rows, or the line of a refused file (rules 11.1 and 11.2).
#![tactic(auto)]

mod answer;
mod room;

use crate::answer::print_answer;
use crate::room::{ROOM, room};
use input::read_input;
use output::Text;

// If standard input cannot be read, `read_input` says so, and nothing is printed.
fn main(rt: HostRuntime) {
    let mut room = room();
    let Some(bytes) = read_input(&rt, b"rows", &mut room) else {
        return;
    };
    let mut text = Text::<ROOM>::new();
    print_answer(&rt, &mut text, &room[..bytes]);
}
