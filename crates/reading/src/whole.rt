// What reading says of a file, if none of its records is needed (rules 8.1 to 8.4 and 8.9).
ghost use Rattle.fields.specs.Readers.{each};
ghost use Rattle.fields.specs.Reaching.{reads_from};
ghost use Rattle.reading.specs.Found.{numbered, VerdictPromise};
ghost use Rattle.reading.specs.Inside.{PassedOver};

use crate::header::read_header;
use crate::record::read_record;
use fields::{Answer, Refusal, Spot, nothing_after};
use records::{Among, Counts, Line, Plant, Record, Segment};

// Whether a file, whatever its bytes are, is read to its end, or why it is refused: 1 to 9 (rules 8.1 to 8.4 and 8.9).
pub fn verdict(file: &[u8]) -> Answer
    ensures { VerdictPromise file.now result }
{
    let (counts, first_plant) = read_header(file)?;
    let first_segment = pass_records::<Plant>(file, first_plant, counts, counts.plants)?;
    let first_line = pass_records::<Segment>(file, first_segment, counts, counts.segments)?;
    let end = pass_records::<Line>(file, first_line, counts, counts.lines)?;
    nothing_after(file, end)
}

// Reads a count of records of a kind, of which the first starts at a spot, and keeps none; tells where the next record starts (rule 2.2).
fn pass_records<R: Record<By = Among>>(
    file: &[u8],
    start: Spot,
    counts: Counts,
    count: u64,
) -> Result<Spot, Refusal>
    ensures { PassedOver result (reads_from (each (numbered R.reader counts) 1 count) file.now start) }
{
    let mut at = start;
    for own in 1..=count {
        let (_, next) = read_record::<R>(file, at, Among { own, counts })?;
        at = next;
    }
    Ok(at)
}
