// Reads standard input into lent room, for all programs.
#![tactic(auto)]

ghost use Rattle.std.specs.Prelude.{IfOk};
ghost use Rattle.io.specs.Counts.{IsPrefixLen};
ghost use Rattle.input.specs.Received.{Received};

use output::complain;
use std::io::{self, Read};

// Reads standard input to its end, or until the room is full, and answers how many bytes of it are at the start of the room.
// A read that fails, which is not the end, is said on standard error, and then there is no answer.
pub fn read_input(rt: &HostRuntime, program: &[u8], room: &mut [u8]) -> Option<usize>
    ensures { Received result room.new }
{
    let bytes = read_parts(&mut rt.stdin(), room).ok();
    if bytes.is_none() {
        complain(
            rt,
            program,
            b"cannot read standard input: see that it is a file that you may read, and run this again",
        );
    }
    bytes
}

// Reads part by part, each behind the last, to the end or until the room is full. A read that fails is not tried again:
// the programs handle no signals, so the system itself takes up a read that one interrupts.
fn read_parts<R: Read>(source: &mut R, room: &mut [u8]) -> io::Result<usize>
    ensures { IfOk result (λ bytes. IsPrefixLen bytes room.new) }
{
    let mut bytes = 0;
    while bytes < room.len() {
        let more = source.read(&mut room[bytes..])?;
        if more == 0 {
            break;
        }
        bytes += more;
    }
    Ok(bytes)
}
