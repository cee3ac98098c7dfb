// The inspector's program for a period file on standard input: it prints the inspector's page (rules 11.6 and 11.7).
#![tactic(auto)]

mod ending;
mod mark;
mod page;
mod room;

use crate::page::print_page;
use input::read_input;

// If standard input cannot be read, `read_input` says so, and nothing is printed.
fn main(rt: HostRuntime) {
    let mut room = io::large_buffer();
    // The last byte of the room is not walked: it shows that a file goes on.
    let most = room.len() - 1;
    let Some(bytes) = read_input(&rt, b"inspect", &mut room) else {
        return;
    };
    let walked = bytes.min(most);
    print_page(&rt, &room[..walked], most < bytes);
}
