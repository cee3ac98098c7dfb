// The answer to a period file, as text: its rows, or the line of a refused file (rules 11.1 and 11.2).
ghost use Rattle.std.specs.Prelude.{◌≡◌, ◌≤◌, length, option_copied};
ghost use Rattle.output.specs.Put.{Put};
ghost use Rattle.output.specs.HandedOver.{HandedOver};
ghost use Rattle.rows.specs.Printed.{printed_rows, most_rows_text};

use output::{Text, print};
use period::{PLANT_NUMBERS, SEGMENT_NUMBERS, quantify};
use records::{Plant, Segment};

// Prints the answer to a file from an empty text's room; answers what was printed, or nothing if it could not be written.
pub(crate) fn print_answer<'a, const N: usize>(
    rt: &HostRuntime,
    text: &'a mut Text<N>,
    file: &[u8],
) -> Option<&'a [u8]>
    requires empty { text.old.end ≡ 0 }
    requires room { most_rows_text ≤ length text.old.room }
    ensures { HandedOver (option_copied result) (printed_rows file.now) }
{
    put_answer(text, file);
    let room: &[u8] = &text.room;
    print(rt, b"rows", &room[..text.end])
}

// Puts that text. The tables have room for every period, so there is no 14 or 15.
fn put_answer<const N: usize>(text: &mut Text<N>, file: &[u8])
    ensures { Put (printed_rows file.now) text.old.end text.old.room text.new.end text.new.room }
{
    let mut plant_table = [0u64; PLANT_NUMBERS * Plant::MOST];
    let mut segment_table = [0u64; SEGMENT_NUMBERS * Segment::MOST];
    match quantify(file, &mut plant_table, &mut segment_table) {
        Ok(written) => {
            let plants = &plant_table[..written.plant_numbers];
            let segments = &segment_table[..written.segment_numbers];
            text.put_rows(b"P", plants, PLANT_NUMBERS);
            text.put_rows(b"S", segments, SEGMENT_NUMBERS);
        }
        Err(refusal) => text.put_refusal(refusal),
    }
}
