// A file gathered: its header, its plants, its segments and its lines, one part after another (rules 2.2, 8.1 to 8.5 and 8.10).
ghost use Rattle.gathering.specs.Gathered.{GatherPromise};

use crate::emissions::{Emissions, add_up};
use fields::Refusal;
use reading::{read_header, read_records};
use records::{Counts, Plant, Segment};

// What stands in an array behind the last plant, and behind the last segment.
const NO_PLANT: Plant = Plant {
    exported: 0,
    first: 0,
    fraction: 0,
};

const NO_SEGMENT: Segment = Segment {
    kind: 0,
    outflow: 0,
    next: 0,
};

// What a file gives before any segment has its turn: how many records there are, the plants and segments with zeros behind them, and what they emit.
#[derive(Drop)]
pub struct Gathered {
    pub counts: Counts,
    pub plants: [Plant; Plant::MOST],
    pub segments: [Segment; Segment::MOST],
    pub emissions: Emissions,
}

// Gathers a file of any length and content (rules 2.1 to 4.4, 8.1 to 8.5 and 8.10). Not inlined, so that its totals leave the stack before any segment
// has its turn.
#[inline(never)]
pub fn gather(file: &[u8]) -> Result<Gathered, Refusal>
    ensures { GatherPromise file.now result }
{
    let (counts, first_plant) = read_header(file)?;
    let (plants, first_segment) = read_records(file, first_plant, counts, counts.plants, NO_PLANT)?;
    let (segments, first_line) = read_records(
        file,
        first_segment,
        counts,
        counts.segments,
        NO_SEGMENT,
    )?;
    let emissions = add_up(file, first_line, counts)?;
    Ok(Gathered {
        counts,
        plants,
        segments,
        emissions,
    })
}
