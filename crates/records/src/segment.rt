// Segments: of which kind each is, what left it by its meter, and where that goes (rules 2.5 to 2.7).
ghost use Rattle.std.specs.Prelude.{◌≡◌};
ghost use Rattle.records.specs.Segments.{kind_allowed, next_allowed, segments_allowed};
ghost use Rattle.records.specs.FieldTests.{SegmentAllows};

use crate::counts::Counts;

#[derive(Clone, Copy)]
pub struct Segment {
    // Its kind: a way of transport, a storage on the way, or a geological store. A number, since the definitions speak of that of the file.
    pub kind: u8,
    // Its metered outflow, in kg.
    pub outflow: u32,
    // The number of the next segment, and 0 for a store.
    pub next: u32,
}

impl Segment {
    // The most segments that a period has, and the fewest (rule 2.3).
    pub const MOST: usize = 32;

    pub const FEWEST: u64 = 1;
    // The numbers of its record in the file, and the most bytes that they take, field by field.
    pub const FIELDS: usize = 3;

    pub const BYTES: usize = 1 + 5 + 1;
    // The owner kind of a line that a segment owns (rule 2.8).
    pub const OWNER_KIND: u64 = 1;
    // The first and the last of the kinds that lead to a next segment (rules 2.6 and 2.7).
    pub const PIPELINE: u64 = 1;

    pub const INTERMEDIATE_STORAGE: u64 = 5;
    // The kind that leads nowhere: a geological store (rules 2.6 and 2.7).
    pub const STORE: u64 = 6;

    // Whether a period may have that many segments (rule 2.3).
    pub(crate) fn count_allowed(count: u64) -> bool
        ensures { result ≡ segments_allowed count }
    {
        (Segment::FEWEST..=Segment::MOST as u64).contains(&count)
    }

    // Whether the field at an index of a segment's record allows a value, by its own number and the numbers before it (rules 2.5 to 2.7).
    pub fn allows(
        field: usize,
        value: u64,
        earlier: [u64; Segment::FIELDS],
        own: u64,
        counts: Counts,
    ) -> bool
        ensures { SegmentAllows counts own earlier field value result }
    {
        match field {
            0 => Segment::kind_allowed(value),
            2 => Segment::next_allowed(value, earlier[0], own, counts),
            _ => true,
        }
    }

    // Whether there is such a kind of segment (rule 2.6).
    fn kind_allowed(kind: u64) -> bool
        ensures { result ≡ kind_allowed kind }
    {
        matches!(kind, Segment::PIPELINE..=Segment::STORE)
    }

    // Whether a segment of this kind and with its own number may lead to this next segment (rule 2.7).
    fn next_allowed(next: u64, kind: u64, own: u64, counts: Counts) -> bool
        ensures { result ≡ next_allowed counts own kind next }
    {
        match kind {
            Segment::PIPELINE..=Segment::INTERMEDIATE_STORAGE => {
                own < next && next <= counts.segments
            }
            Segment::STORE => next == 0,
            _ => false,
        }
    }
}
