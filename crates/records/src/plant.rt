// Plants: what each exported, where its route starts, and which part of its CO2 is of the origin that counts (rule 2.4).
ghost use Rattle.std.specs.Prelude.{◌≡◌};
ghost use Rattle.records.specs.Plants.{first_allowed, fraction_allowed, plants_allowed};
ghost use Rattle.records.specs.FieldTests.{PlantAllows};

use crate::counts::Counts;

#[derive(Clone, Copy)]
pub struct Plant {
    // What it exported, in kg.
    pub exported: u32,
    // The number of the first segment of its route.
    pub first: u32,
    // Its origin fraction, in millionths.
    pub fraction: u32,
}

impl Plant {
    // The most plants that a period has, and the fewest (rule 2.3).
    pub const MOST: usize = 16;

    pub const FEWEST: u64 = 1;
    // The numbers of its record in the file, and the most bytes that they take, field by field.
    pub const FIELDS: usize = 3;

    pub const BYTES: usize = 5 + 1 + 3;
    // The owner kind of a line that a plant owns (rule 2.8).
    pub const OWNER_KIND: u64 = 0;
    // The largest origin fraction: the whole (rule 2.4).
    pub const LARGEST_FRACTION: u64 = 1_000_000;

    // Whether a period may have that many plants (rule 2.3).
    pub(crate) fn count_allowed(count: u64) -> bool
        ensures { result ≡ plants_allowed count }
    {
        (Plant::FEWEST..=Plant::MOST as u64).contains(&count)
    }

    // Whether the field at an index of a plant's record allows a value, whatever comes before it (rule 2.4).
    pub fn allows(field: usize, value: u64, counts: Counts) -> bool
        ensures { PlantAllows counts field value result }
    {
        match field {
            1 => Plant::first_allowed(value, counts),
            2 => Plant::fraction_allowed(value),
            _ => true,
        }
    }

    // Whether a route may start at this segment (rule 2.4).
    fn first_allowed(first: u64, counts: Counts) -> bool
        ensures { result ≡ first_allowed counts first }
    {
        (1..=counts.segments).contains(&first)
    }

    // Whether a plant may have this origin fraction (rule 2.4).
    fn fraction_allowed(fraction: u64) -> bool
        ensures { result ≡ fraction_allowed fraction }
    {
        fraction <= Plant::LARGEST_FRACTION
    }
}
