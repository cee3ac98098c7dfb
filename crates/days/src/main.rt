// The program for a meter's sheet on standard input: it prints its five figures, or the line of a refused sheet (rule 12.10).
#![tactic(auto)]

mod answer;
mod room;

use crate::answer::print_answer;
use crate::room::{TEXT, room};
use input::read_input;
use output::Text;

// If standard input cannot be read, `read_input` says so, and nothing is printed.
fn main(rt: HostRuntime) {
    let mut room = room();
    let Some(bytes) = read_input(&rt, b"days", &mut room) else {
        return;
    };
    let mut text = Text::<TEXT>::new();
    print_answer(&rt, &mut text, &room[..bytes]);
}
