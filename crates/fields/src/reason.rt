// The reasons to refuse: one enum for all files and calls, since each number has one meaning (rule 8.1).
ghost use Rattle.std.specs.Prelude.{◌≡◌};
ghost use Rattle.fields.specs.Reasons.{ReasonNumberPromise, fault_reason};

use number::Fault;

// In the order of their numbers. Files of every kind can have 1, 2, 3, 5 and 9.
#[derive(Clone, Copy)]
pub enum Reason {
    // The bytes end within a number, or before one that is still due.
    Ends,
    // A number is not in its shortest form.
    NotShortest,
    // A number has more groups than five, or its value is over the limit.
    TooLarge,
    // The edition is not the one that is read here.
    WrongEdition,
    // A count is out of its range: there are too few or too many records of a kind, or days.
    WrongCount,
    // A plant's first segment or origin fraction is out of its range.
    WrongPlant,
    // A segment has a kind or a next segment that is not allowed.
    WrongSegment,
    // A line's owner kind, owner, class or factor is not allowed.
    WrongLine,
    // Bytes follow the last number. The place is the count of numbers.
    BytesAfter,
    // An owner's grams are over the limit. The place is the line with which they are.
    TooManyGrams,
    // A segment's inflow is over the largest amount. The place is the segment, here and in the next two.
    InflowTooLarge,
    // A segment's metered outflow is larger than its inflow.
    OutflowOverInflow,
    // A segment has an emission, and no inflow to charge it to.
    EmissionWithoutInflow,
    // The table for the plants' rows is too short, or a writer's buffer. The place is how many numbers it needs, here and in the next; of the
    // buffer, how many bytes.
    PlantTableShort,
    // The table for the segments' rows is too short.
    SegmentTableShort,
    // A plant's fossil CO2 captured is more than its fuel gives. The place is the plant.
    CapturedOverFuel,
}

impl Reason {
    // Its number of refusal (rule 8.1).
    pub fn number(self) -> u32
        ensures { ReasonNumberPromise self result }
    {
        match self {
            Reason::Ends => 1,
            Reason::NotShortest => 2,
            Reason::TooLarge => 3,
            Reason::WrongEdition => 4,
            Reason::WrongCount => 5,
            Reason::WrongPlant => 6,
            Reason::WrongSegment => 7,
            Reason::WrongLine => 8,
            Reason::BytesAfter => 9,
            Reason::TooManyGrams => 10,
            Reason::InflowTooLarge => 11,
            Reason::OutflowOverInflow => 12,
            Reason::EmissionWithoutInflow => 13,
            Reason::PlantTableShort => 14,
            Reason::SegmentTableShort => 15,
            Reason::CapturedOverFuel => 16,
        }
    }
}

// The reason to refuse a file in which a number has this fault (rule 8.1).
impl From<Fault> for Reason {
    ghost from_gives = { λ fault r. r ≡ fault_reason fault };

    fn from(fault: Fault) -> Reason {
        match fault {
            Fault::Ends => Reason::Ends,
            Fault::NotShortest => Reason::NotShortest,
            Fault::TooLarge => Reason::TooLarge,
        }
    }
}
