// A record of each kind behind the header, by the kind's name (rules 2.4 to 2.8, 3.2 and 8.3).
ghost use Rattle.reading.specs.Found.{ReadLinePromise, ReadPlantPromise, ReadSegmentPromise};

use crate::record::read_record;
use fields::{Refusal, Spot};
use records::{Among, Counts, Line, Plant, Segment};

// What a plant and a line are tested by in place of a number of their own: no test looks at it.
const NONE: u64 = 0;

// Reads the plant's record at a spot, with the spot of the next one (rules 2.4 and 8.3). Any spot and counts may be given.
pub fn read_plant(file: &[u8], start: Spot, counts: Counts) -> Result<(Plant, Spot), Refusal>
    ensures { ReadPlantPromise file.now start counts result }
{
    read_record::<Plant>(file, start, Among { own: NONE, counts })
}

// Reads the segment's record at a spot, in the same way, by its own number (rules 2.5 to 2.7 and 8.3).
pub fn read_segment(
    file: &[u8],
    start: Spot,
    own: u64,
    counts: Counts,
) -> Result<(Segment, Spot), Refusal>
    ensures { ReadSegmentPromise file.now start own counts result }
{
    read_record::<Segment>(file, start, Among { own, counts })
}

// Reads the line's record at a spot, in the same way (rules 2.8, 3.2 and 8.3).
pub fn read_line(file: &[u8], start: Spot, counts: Counts) -> Result<(Line, Spot), Refusal>
    ensures { ReadLinePromise file.now start counts result }
{
    read_record::<Line>(file, start, Among { own: NONE, counts })
}
