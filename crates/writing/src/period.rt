// Writing a period file: its list is tested record by record (rules 15.1 to 15.5).
ghost use Rattle.fields.specs.Readers.{each};
ghost use Rattle.fields.specs.Reaching.{reads_from};
ghost use Rattle.fields.specs.Written.{file_of};
ghost use Rattle.plain.specs.Bytes.{table_numbers};
ghost use Rattle.records.specs.Periods.{period_verdict};
ghost use Rattle.writing.specs.Written.{WritePeriodPromise};
ghost use Rattle.writing.specs.Inside.{At, by_number, PassedAs, TestedWhole};

use crate::bytes::write_file;
use crate::list::nothing_left;
use crate::record::test_record;
use fields::{Refusal, Spot};
use records::{Among, Counts, Line, Plant, Record, Segment};

// Writes the period file of a list to the start of a buffer, and answers how many bytes that are; or refuses the list, and leaves the buffer as it
// was (rules 15.1 to 15.5).
pub fn write_period(numbers: &[u8], buffer: &mut [u8]) -> Result<usize, Refusal>
    ensures { WritePeriodPromise numbers.now buffer.old result buffer.new }
{
    let bytes = test_period(numbers)?;
    write_file(numbers, bytes, buffer)
}

// Tests the whole list: the header, the plants, the segments, the lines, and that nothing is left; answers how many bytes its file has (rules 15.2
// and 15.3).
fn test_period(numbers: &[u8]) -> Result<usize, Refusal>
    ensures { TestedWhole (period_verdict (file_of (table_numbers numbers.now))) (table_numbers numbers.now) result }
{
    let (counts, first_plant) = test_record::<Counts>(numbers, Spot::first(), ())?;
    let first_segment = test_records::<Plant>(numbers, first_plant, counts, counts.plants)?;
    let first_line = test_records::<Segment>(numbers, first_segment, counts, counts.segments)?;
    let end = test_records::<Line>(numbers, first_line, counts, counts.lines)?;
    nothing_left(numbers, end)
}

// Tests as many records of a kind as the header says, of which the first starts at a spot; answers where the next one would (rule 2.2). Not put into its caller:
// its loop needs the registers.
#[inline(never)]
fn test_records<R: Record<By = Among>>(
    numbers: &[u8],
    start: Spot,
    counts: Counts,
    count: u64,
) -> Result<Spot, Refusal>
    requires { At (table_numbers numbers.now) start }
    ensures { PassedAs (table_numbers numbers.now) result (reads_from (each (by_number R.reader counts) 1 count) (file_of (table_numbers numbers.now)) start) }
{
    let mut at = start;
    for n in 0..count {
        let own = n + 1;
        let (_, next) = test_record::<R>(numbers, at, Among { own, counts })?;
        at = next;
    }
    Ok(at)
}
