// Numbers taken from a file, one after another, and its end (rules 2.1, 8.2 to 8.4 and 8.9).
ghost use Rattle.fields.specs.Spots.{NothingAfterPromise, TakePromise};

use crate::answer::{Answer, Refusal};
use crate::reason::Reason;
use crate::spot::Spot;
use number::read_at;

// Takes the number at a spot, with the spot of the next one; or its fault (rules 2.1, 8.2, 8.3 and 8.9). Any spot may be given; places wrap at 64
// bits, which no file reaches.
pub fn take(file: &[u8], at: Spot) -> Result<(u64, Spot), Refusal>
    ensures { TakePromise file.now at result }
{
    let report = read_at(file, at.byte);
    // Past the end of the file its offset is the end.
    let here = Spot {
        byte: report.offset,
        place: at.place,
    };
    let number = report
        .number
        .map_err(|fault| here.refusal(Reason::from(fault)))?;
    let next = Spot {
        byte: number.next,
        place: at.place.wrapping_add(1),
    };
    Ok((number.value, next))
}

// Whether a file ends at a spot, behind its last number: bytes that follow are refused (rules 8.4 and 8.9).
pub fn nothing_after(file: &[u8], at: Spot) -> Answer
    ensures { NothingAfterPromise file.now at result }
{
    if at.byte < file.len() {
        return Err(at.refusal(Reason::BytesAfter));
    }
    Ok(())
}
