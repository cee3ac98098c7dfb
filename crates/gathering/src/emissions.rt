// What the owners emit: the grams of their lines, added up as they are read, then tested and rounded up to a kg once (rules 4.1 to 4.4, 8.5 and 8.10).
ghost use Rattle.std.specs.Prelude.{◌≡◌};
ghost use Rattle.records.specs.Places.{line_start};
ghost use Rattle.records.specs.Within.{CountsWithin};
ghost use Rattle.gathering.specs.OwnerTotals.{first_over, no_totals};
ghost use Rattle.gathering.specs.Inside.{AddedUp, LinesAdded};

use crate::totals::Totals;
use fields::{Answer, Reason, Refusal, Spot, nothing_after};
use reading::read_line;
use records::{Counts, Line, Plant, Segment};

// What the owners emit (rules 4.3 and 4.4).
#[derive(Clone, Copy)]
pub struct Emissions {
    // How many bytes were read up to the end of the file: the offset of what the accounts refuse (rule 8.9).
    pub bytes: u64,
    // The kg of each plant and of each segment, by its index, and zeros behind them.
    pub plants: [u64; Emissions::OWNERS],
    pub segments: [u64; Emissions::OWNERS],
}

impl Emissions {
    // The most owners of one kind.
    pub const OWNERS: usize = Segment::MOST;
}

// Adds up the lines from a spot on, to what each plant and segment emits, if they are read to the end of the file, no total passes the limit and no plant
// has more captured than its fuel gives (rules 4.2 to 4.4, 8.5 and 8.10).
pub(crate) fn add_up(file: &[u8], start: Spot, counts: Counts) -> Result<Emissions, Refusal>
    requires counts_within { CountsWithin counts }
    requires byte_value { start.byte ≡ line_start file.now counts 0 }
    ensures { AddedUp file.now start counts result }
{
    let mut totals = Totals::new();
    add_lines(file, start, counts, &mut totals)?;
    let bytes = file.len() as u64;
    let plants = counts.plants as usize;
    totals.test_captured(plants, bytes)?;
    Ok(Emissions {
        bytes,
        plants: totals.in_kg(0, plants),
        segments: totals.in_kg(Plant::MOST, counts.segments as usize),
    })
}

// Reads the lines from a spot on, and adds each to its owner's totals. The first line that passes the limit is the answer only if the file is read to its
// end (rules 4.2, 8.4 and 8.5).
fn add_lines(file: &[u8], start: Spot, counts: Counts, totals: &mut Totals) -> Answer
    requires counts_within { CountsWithin counts }
    requires byte_value { start.byte ≡ line_start file.now counts 0 }
    requires none_added { totals.old ≡ no_totals }
    ensures { LinesAdded file.now start counts result totals.new }
{
    let mut over = None;
    let mut at = start;
    for own in 1..=counts.lines {
        let (line, next) = read_line(file, at, counts)?;
        let total = totals.add(line);
        let here = Spot {
            byte: at.byte,
            place: own,
        };
        over = first_over(over, total, here);
        at = next;
    }
    nothing_after(file, at)?;
    match over {
        None => Ok(()),
        Some(first) => Err(first.refusal(Reason::TooManyGrams)),
    }
}

// The first line whose owner's total passes the limit, by its number and its first byte: the one found before, or else this one (rules 8.5 and 8.9).
fn first_over(over: Option<Spot>, total: u64, line: Spot) -> Option<Spot>
    ensures { result ≡ first_over over total line }
{
    if Line::MOST_GRAMS < total {
        over.or(Some(line))
    } else {
        over
    }
}
