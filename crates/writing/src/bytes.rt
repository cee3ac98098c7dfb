// From a list that was tested to the bytes of its file (rules 15.1, 15.4 and 15.5).
ghost use Rattle.std.specs.Prelude.{◌≤◌, ◌≡◌, length};
ghost use Rattle.fields.specs.Answers.{accepts};
ghost use Rattle.fields.specs.Written.{buffer_after, file_of, fitting};
ghost use Rattle.plain.specs.Bytes.{table_numbers};
ghost use Rattle.writing.specs.Written.{WrittenBy};

use fields::{Reason, Refusal};
use number::write_at;
use plain::{plain_at, room};

// Writes the file of a list that is accepted, which has this many bytes, if the buffer has room for it (rules 15.4 and 15.5).
pub(crate) fn write_file(numbers: &[u8], bytes: usize, buffer: &mut [u8]) -> Result<usize, Refusal>
    requires { bytes ≡ length (file_of (table_numbers numbers.now)) }
    ensures { WrittenBy (fitting bytes (length buffer.old) accepts) (table_numbers numbers.now) buffer.old result buffer.new }
{
    if buffer.len() < bytes {
        let needed = bytes as u64;
        return Err(Refusal {
            reason: Reason::PlantTableShort,
            place: needed,
            offset: needed,
        });
    }
    write_numbers(numbers, buffer);
    Ok(bytes)
}

// Writes all numbers, each in its shortest form, one behind another (rule 15.1).
fn write_numbers(numbers: &[u8], buffer: &mut [u8])
    requires { length (file_of (table_numbers numbers.now)) ≤ length buffer.old }
    ensures { buffer.new ≡ buffer_after (file_of (table_numbers numbers.now)) buffer.old }
{
    let mut at = 0;
    for n in 0..room(numbers.len()) {
        at += write_at(buffer, at, plain_at(numbers, n));
    }
}
