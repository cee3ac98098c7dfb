// Numbers taken from a list, one after another, as they are taken from its file when that is read (rules 15.2 and 15.3).
ghost use Rattle.fields.specs.Spots.{end_at};
ghost use Rattle.fields.specs.Written.{file_of};
ghost use Rattle.plain.specs.Bytes.{table_numbers};
ghost use Rattle.writing.specs.Inside.{At, TestedWhole, TookListed};

use fields::{Reason, Refusal, Spot};
use number::{Number, size_of};
use plain::{plain_at, room};

// Takes the number at a spot: its place in the list, and the byte at which the file has it (rules 15.2 and 15.3).
pub(crate) fn take_listed(numbers: &[u8], at: Spot) -> Result<(u64, Spot), Refusal>
    requires { At (table_numbers numbers.now) at }
    ensures { TookListed (table_numbers numbers.now) at result }
{
    let index = at.place as usize;
    if room(numbers.len()) <= index {
        return Err(at.refusal(Reason::Ends));
    }
    let value = plain_at(numbers, index);
    if Number::LARGEST < value {
        return Err(at.refusal(Reason::TooLarge));
    }
    let next = Spot {
        byte: at.byte + size_of(value),
        place: at.place + 1,
    };
    Ok((value, next))
}

// How many bytes the file has, if the list ends at a spot, behind the last number that is needed: numbers that are left are refused (rule 15.3).
pub(crate) fn nothing_left(numbers: &[u8], at: Spot) -> Result<usize, Refusal>
    requires { At (table_numbers numbers.now) at }
    ensures { TestedWhole (end_at (file_of (table_numbers numbers.now)) at) (table_numbers numbers.now) result }
{
    let index = at.place as usize;
    if index < room(numbers.len()) {
        return Err(at.refusal(Reason::BytesAfter));
    }
    Ok(at.byte)
}
