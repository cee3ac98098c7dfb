// The line of a period case: all numbers that are read from its file, or the line of a refused file (rule 11.2).
use crate::LineText;
use fields::{Refusal, Spot};
use reading::{read_header, read_record, verdict};
use records::{Among, Counts, Header, Line, Plant, Record, Segment};

// A kind of record whose numbers are put.
trait Shown: Record<By = Among> {
    // Puts its numbers in file order, each behind a space.
    fn put(self, text: &mut LineText);
}

impl Shown for Plant {
    fn put(self, text: &mut LineText) {
        let numbers = [self.exported, self.first, self.fraction];
        put_numbers(text, &numbers);
    }
}

impl Shown for Segment {
    fn put(self, text: &mut LineText) {
        let numbers = [u32::from(self.kind), self.outflow, self.next];
        put_numbers(text, &numbers);
    }
}

impl Shown for Line {
    fn put(self, text: &mut LineText) {
        let numbers = [
            u32::from(self.owner_kind),
            self.owner,
            u32::from(self.class),
            self.quantity,
            self.factor,
        ];
        put_numbers(text, &numbers);
    }
}

// Puts numbers, each behind a space.
fn put_numbers(text: &mut LineText, numbers: &[u32]) {
    for number in numbers {
        text.put_spaced(u64::from(*number));
    }
}

// Puts the line of a period file. Of a refused one only that is shown, over what is put of its records.
pub(crate) fn put_reading(text: &mut LineText, file: &[u8]) {
    if let Err(refusal) = put_accepted(text, file) {
        text.end = 0;
        text.put_refusal(refusal);
    }
}

// Puts the line of a file that is read to its end: its numbers in file order.
fn put_accepted(text: &mut LineText, file: &[u8]) -> Result<(), Refusal> {
    verdict(file)?;
    let (counts, first_plant) = read_header(file)?;
    put_header(text, counts);
    let first_segment = put_records::<Plant>(text, file, counts, counts.plants, first_plant)?;
    let first_line = put_records::<Segment>(text, file, counts, counts.segments, first_segment)?;
    put_records::<Line>(text, file, counts, counts.lines, first_line)?;
    text.put_words(b"\n");
    Ok(())
}

// Puts the start of the line: A, the edition and the counts of the header.
fn put_header(text: &mut LineText, counts: Counts) {
    text.put_words(b"A");
    text.put_spaced(Header::EDITION);
    text.put_spaced(counts.plants);
    text.put_spaced(counts.segments);
    text.put_spaced(counts.lines);
}

// Puts the numbers of a count of records of a kind, each as it is read; tells where the next record starts.
fn put_records<R: Shown>(
    text: &mut LineText,
    file: &[u8],
    counts: Counts,
    count: u64,
    start: Spot,
) -> Result<Spot, Refusal> {
    let mut at = start;
    for own in 1..=count {
        let (record, next) = read_record::<R>(file, at, Among { own, counts })?;
        record.put(text);
        at = next;
    }
    Ok(at)
}
