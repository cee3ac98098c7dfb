// Reads a text: its numbers go into a list of plain ones (rules 10.5 and 16.1 to 16.3).
ghost use Rattle.std.specs.Prelude.{◌+◌, ◌^◌, ◌<◌, ◌≤◌, ◌≡◌, length, MatchResult};
ghost use Rattle.std.specs.Option.{option_to_list};
ghost use Rattle.typed.specs.Text.{first_stray};
ghost use Rattle.typed.specs.Promises.{ReadTextPromise, stray_in};
ghost use Rattle.typed.specs.Inside.{AllListed, one_listed};

use crate::scan::Scan;
use plain::{NUMBER_BYTES, room, write_plain};

// The first byte of a text that does not belong there, and its offset (rule 16.3).
#[derive(Clone, Copy)]
pub struct Stray {
    pub offset: usize,
    pub byte: u8,
}

// Reads a text, and answers how many numbers it has. They are written from the start of a list on, as far as there is room, with a stray byte taken
// for a space (rules 16.1 to 16.3).
pub fn read_text(text: &[u8], numbers: &mut [u8]) -> Result<usize, Stray>
    ensures { ReadTextPromise text.now numbers.old result numbers.new }
{
    let count = list_numbers(text, numbers);
    no_stray(text)?;
    Ok(count)
}

// Refuses the first stray byte of a text (rule 16.3).
fn no_stray(text: &[u8]) -> Result<(), Stray>
    ensures { MatchResult result
        (λ none. length text.now ≤ first_stray text.now)
        (λ stray. (first_stray text.now < length text.now) × (stray ≡ stray_in text.now)) }
{
    let mut scan = Scan::Between;
    for (offset, byte) in text.iter().enumerate() {
        if scan.is_stray(*byte) {
            return Err(Stray {
                offset,
                byte: *byte,
            });
        }
        scan = scan.behind(*byte);
    }
    Ok(())
}

// Writes all numbers of a text, as far as there is room, and counts them (rule 16.2).
fn list_numbers(text: &[u8], list: &mut [u8]) -> usize
    ensures { AllListed text.now list.old result list.new }
{
    let mut scan = Scan::Between;
    let mut count = 0;
    for byte in text {
        count = list_number(list, count, scan.ended_by(*byte));
        scan = scan.behind(*byte);
    }
    list_number(list, count, scan.ending())
}

// Writes a number at an index of a list, if there is one, and room for it, and answers the index behind it (rule 10.5).
fn list_number(list: &mut [u8], index: usize, number: Option<u64>) -> usize
    requires { index + length (option_to_list number) < 2 ^ 64 }
    ensures value { result ≡ index + length (option_to_list number) }
    ensures list_after { list.new ≡ one_listed number list.old index }
{
    let Some(number) = number else {
        return index;
    };
    if index < room(list.len()) {
        write_plain(list, NUMBER_BYTES * index, number);
    }
    index + 1
}
