// The numbers of one record of a list, tested one after another (rules 15.2 and 15.3).
// Apart from `read_record` of `reading`, the same loop over a file: a public one for both would ask, by a `requires`, that each spot it comes to has a number.
ghost use Rattle.fields.specs.Reaching.{reads_from};
ghost use Rattle.fields.specs.Written.{file_of};
ghost use Rattle.plain.specs.Bytes.{table_numbers};
ghost use Rattle.writing.specs.Inside.{At, TestedAs};

use crate::list::take_listed;
use fields::{Refusal, Spot};
use records::{MOST_FIELDS, Record};

// Tests the record that starts at a spot: each number is tested before the next one is taken (rules 2.3, 15.2 and 15.3).
pub(crate) fn test_record<R: Record>(
    numbers: &[u8],
    start: Spot,
    by: R::By,
) -> Result<(R, Spot), Refusal>
    requires { At (table_numbers numbers.now) start }
    ensures { TestedAs (table_numbers numbers.now) result (reads_from (R.reader by) (file_of (table_numbers numbers.now)) start) }
{
    let mut values = [0; MOST_FIELDS];
    let mut at = start;
    for f in 0..R::FIELDS {
        let (value, next) = take_listed(numbers, at)?;
        if !R::allows(f, value, values, by) {
            return Err(at.refusal(R::reason(f)));
        }
        values[f] = value;
        at = next;
    }
    Ok((R::made(values, by), at))
}
