// One record of a file, of any kind (rules 2.2 to 2.8 and 8.3).
ghost use Rattle.std.specs.Prelude.{length};
ghost use Rattle.fields.specs.Readers.{each};
ghost use Rattle.fields.specs.Reaching.{reads_from};
ghost use Rattle.reading.specs.Found.{numbered, ReadRecordPromise, ReadRecordsPromise};
ghost use Rattle.reading.specs.Inside.{FilledBy};

use fields::{Refusal, Spot, take};
use records::{Among, Counts, MOST_FIELDS, Record};

// Reads the record at a spot, with the spot of the next one: each number is tested before the next one is taken (rule 8.3). Any spot may be given, and
// whatever the record is tested by.
pub fn read_record<R: Record>(file: &[u8], start: Spot, by: R::By) -> Result<(R, Spot), Refusal>
    ensures { ReadRecordPromise (R.reader by) file.now start result }
{
    let mut values = [0u64; MOST_FIELDS];
    let mut at = start;
    for f in 0..R::FIELDS {
        let (value, next) = take(file, at)?;
        if !R::allows(f, value, values, by) {
            return Err(at.refusal(R::reason(f)));
        }
        values[f] = value;
        at = next;
    }
    Ok((R::made(values, by), at))
}

// Reads a count of records of a kind, of which the first starts at a spot, with the spot of the next one: as many as the array has room for. Behind
// them it holds the given value (rule 2.2).
pub fn read_records<R: Record<By = Among>, const N: usize>(
    file: &[u8],
    start: Spot,
    counts: Counts,
    count: u64,
    none: R,
) -> Result<([R; N], Spot), Refusal>
    ensures { ReadRecordsPromise (numbered R.reader counts) none N count file.now start result }
{
    let mut records = [none; N];
    let room = count.min(N as u64) as usize;
    let next = fill_records(file, start, counts, &mut records[..room])?;
    Ok((records, next))
}

// Reads as many records as a slice has room for; tells where the next record starts.
fn fill_records<R: Record<By = Among>>(
    file: &[u8],
    start: Spot,
    counts: Counts,
    records: &mut [R],
) -> Result<Spot, Refusal>
    ensures { FilledBy records.new result (reads_from (each (numbered R.reader counts) 1 (length records.old)) file.now start) }
{
    let mut at = start;
    for (index, record) in records.iter_mut().enumerate() {
        let own = index as u64 + 1;
        let (read, next) = read_record::<R>(file, at, Among { own, counts })?;
        *record = read;
        at = next;
    }
    Ok(at)
}
