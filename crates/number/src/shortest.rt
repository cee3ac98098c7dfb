// Writing one number in its shortest form (rule 1.3).
ghost use Rattle.std.specs.Prelude.{◌+◌, ◌≤◌, ◌≡◌, length, leb};
ghost use Rattle.std.proofs.lemmas.List.Edits.{sets};
ghost use Rattle.number.specs.Writing.{written, SizeOfPromise, WriteAtPromise};

use crate::Number;
use crate::groups::RADIX;

// How many bytes the shortest form of a value has. One that five groups do not hold is cut after the fifth (rules 1.3 and 1.4).
pub fn size_of(value: u64) -> usize
    ensures { SizeOfPromise value result }
{
    let mut rest = value;
    for n in 1..Number::GROUPS {
        if rest < RADIX {
            return n;
        }
        rest /= RADIX;
    }
    Number::GROUPS
}

// Writes the shortest form of a value from a byte of the buffer on, and answers how many bytes that are; without room for all of them nothing is
// written (rules 1.1 to 1.3).
pub fn write_at(buffer: &mut [u8], at: usize, value: u64) -> usize
    ensures { WriteAtPromise value at buffer.old result buffer.new }
{
    if !has_room(buffer.len(), at, value) {
        return 0;
    }
    write_groups(buffer, at, value)
}

// Whether a value has room from a byte of a buffer of this length on. Its bytes are counted only where less than the most groups would fit.
fn has_room(bytes: usize, at: usize, value: u64) -> bool
    ensures { result ≡ leb (at + length (written value)) bytes }
{
    if bytes < at {
        return false;
    }
    let left = bytes - at;
    Number::GROUPS <= left || size_of(value) <= left
}

// Writes it where there is room, and counts its groups: each but the last says that another follows (rule 1.1).
fn write_groups(buffer: &mut [u8], at: usize, value: u64) -> usize
    requires { at + length (written value) ≤ length buffer.old }
    ensures value { result ≡ length (written value) }
    ensures buffer_after { buffer.new ≡ sets buffer.old at (written value) }
{
    let mut left = value;
    for n in 0..Number::GROUPS {
        if left < RADIX {
            buffer[at + n] = left as u8;
            return n + 1;
        }
        buffer[at + n] = (RADIX + left % RADIX) as u8;
        left /= RADIX;
    }
    Number::GROUPS
}
