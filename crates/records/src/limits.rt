// The limits of a period, for callers that make files or room for what is in them (rule 9.1).
ghost use Rattle.records.specs.Limits.{LimitsPromise};

use crate::class::Class;
use crate::header::Header;
use crate::line::Line;
use crate::plant::Plant;
use crate::segment::Segment;

#[derive(Drop)]
pub struct Limits {
    // The most records of each kind.
    pub plants: usize,
    pub segments: usize,
    pub lines: usize,
    // The largest fields: an origin fraction, a kind, a class and a factor.
    pub fraction: u64,
    pub kind: u64,
    pub class: u64,
    pub factor: u64,
    // The most grams of one owner.
    pub grams: u64,
    // The most numbers of a file, and its most bytes.
    pub numbers: u64,
    pub bytes: usize,
}

impl Limits {
    pub const NUMBERS: usize = Header::FIELDS
        + Plant::FIELDS * Plant::MOST
        + Segment::FIELDS * Segment::MOST
        + Line::FIELDS * Line::MOST;

    pub const BYTES: usize = Header::BYTES
        + Plant::BYTES * Plant::MOST
        + Segment::BYTES * Segment::MOST
        + Line::BYTES * Line::MOST;

    // Every limit as the records state it. The promise ties them to those of the definitions (rule 9.1).
    pub fn new() -> Limits
        ensures { LimitsPromise result }
    {
        Limits {
            plants: Plant::MOST,
            segments: Segment::MOST,
            lines: Line::MOST,
            fraction: Plant::LARGEST_FRACTION,
            kind: Segment::STORE,
            class: Class::LAST,
            factor: Class::LARGEST_FACTOR,
            grams: Line::MOST_GRAMS,
            numbers: Limits::NUMBERS as u64,
            bytes: Limits::BYTES,
        }
    }
}
