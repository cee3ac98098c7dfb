// The program that writes a meter's sheet: it reads typed text on standard input, and prints the sheet, or a line that says why not (rule 16.5).
#![tactic(auto)]

mod answer;

use crate::answer::{ROOM, print_answer};
use input::read_input;
use output::Text;
use typing::text_room;

// If standard input cannot be read, `read_input` says so, and nothing is printed.
fn main(rt: HostRuntime) {
    let mut text = text_room();
    let Some(bytes) = read_input(&rt, b"write_days", &mut text) else {
        return;
    };
    let mut answer = Text::<ROOM>::new();
    print_answer(&rt, &text[..bytes], &mut answer);
}
