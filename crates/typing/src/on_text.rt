// The lines for a typed text, put behind what the answer's `Text` has (rule 16.5).
ghost use Rattle.typing.specs.Promises.{PutFaultPromise, PutWrittenPromise};

use crate::answer::{put_fault_at, put_written_at};
use crate::listing::Fault;
use fields::Refusal;
use output::Text;

// Puts the line of a text whose numbers are not looked at: L and the limit, or T, the offset and the byte (rule 16.5).
pub fn put_fault<const N: usize>(answer: &mut Text<N>, fault: Fault)
    ensures { PutFaultPromise fault answer.old.end answer.old.room answer.new.end answer.new.room }
{
    answer.end = put_fault_at(&mut answer.room, answer.end, fault);
}

// Lets a file that was written be all that is printed; or puts the line of its refusal, with the offset in the text of the number at its place (rule
// 16.5).
pub fn put_written<const N: usize>(
    answer: &mut Text<N>,
    text: &[u8],
    written: Result<usize, Refusal>,
)
    ensures { PutWrittenPromise text.now written answer.old.end answer.old.room answer.new.end answer.new.room }
{
    answer.end = put_written_at(&mut answer.room, answer.end, text, written);
}
