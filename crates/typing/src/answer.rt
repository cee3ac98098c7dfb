// What is printed for a text (rule 16.5).
ghost use Rattle.std.specs.Prelude.{ℕ, length, List};
ghost use Rattle.fields.specs.Answers.{Verdict};
ghost use Rattle.plain.specs.Bytes.{table_numbers};
ghost use Rattle.writing.specs.Written.{WrittenBy};
ghost use Rattle.typing.specs.Promises.{PutAnswerPromise, PutFaultPromise, PutWrittenPromise};

use crate::listing::{Fault, list_text};
use crate::room::{MOST_TEXT, list_room};
use fields::Refusal;
use output::{Text, put_line, put_refusal};
use plain::NUMBER_BYTES;
use typed::number_start;

// A kind of file, by how a list is written as one.
pub trait Kind {
    // What is said of a list of numbers, with room for so many bytes.
    ghost verdict: { (numbers : List ℕ) (room : ℕ) → Verdict };

    // Writes the file of a list to the start of a buffer, and answers how many bytes that are; or refuses the list, and leaves the buffer as it was
    // (rule 15.5).
    fn write(numbers: &[u8], buffer: &mut [u8]) -> Result<usize, Refusal>
        ensures { WrittenBy (verdict (table_numbers numbers.now) (length buffer.old)) (table_numbers numbers.now) buffer.old result buffer.new };
}

// Puts the file of a text's numbers at the start of the room, as all that is printed; or puts the line that says why there is none (rule 16.5).
pub fn put_answer<K: Kind, const N: usize>(answer: &mut Text<N>, text: &[u8])
    ensures { PutAnswerPromise K.verdict text.now answer.old.end answer.old.room answer.new.end answer.new.room }
{
    let mut list = list_room();
    match list_text(text, &mut list) {
        Err(fault) => answer.end = put_fault_at(&mut answer.room, answer.end, fault),
        Ok(count) => {
            let bytes = NUMBER_BYTES * count;
            let written = K::write(&list[..bytes], &mut answer.room);
            answer.end = put_written_at(&mut answer.room, answer.end, text, written);
        }
    }
}

// Puts the line of a text whose numbers are not looked at to the start of a lent buffer, and answers the byte behind it: L and the limit, or T, the offset
// and the byte (rule 16.5).
pub fn put_fault(buffer: &mut [u8], fault: Fault) -> usize
    ensures { PutFaultPromise fault 0 buffer.old result buffer.new }
{
    put_fault_at(buffer, 0, fault)
}

// The same, at any byte.
pub(crate) fn put_fault_at(buffer: &mut [u8], at: usize, fault: Fault) -> usize
    ensures { PutFaultPromise fault at buffer.old result buffer.new }
{
    match fault {
        Fault::Long => put_line(buffer, at, b"L", &[MOST_TEXT as u64]),
        Fault::Stray(stray) => {
            let numbers = [stray.offset as u64, u64::from(stray.byte)];
            put_line(buffer, at, b"T", &numbers)
        }
    }
}

// The byte behind a file that was written to a lent buffer; or puts the line of its refusal to the start, with the offset in the text of the number at its
// place, and answers the byte behind that (rule 16.5).
pub fn put_written(buffer: &mut [u8], text: &[u8], written: Result<usize, Refusal>) -> usize
    ensures { PutWrittenPromise text.now written 0 buffer.old result buffer.new }
{
    put_written_at(buffer, 0, text, written)
}

// The same, with the line at any byte.
pub(crate) fn put_written_at(
    buffer: &mut [u8],
    at: usize,
    text: &[u8],
    written: Result<usize, Refusal>,
) -> usize
    ensures { PutWrittenPromise text.now written at buffer.old result buffer.new }
{
    match written {
        Ok(bytes) => bytes,
        Err(refusal) => {
            let offset = number_start(text, refusal.place) as u64;
            put_refusal(buffer, at, Refusal { offset, ..refusal })
        }
    }
}
