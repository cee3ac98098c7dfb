// Lines: an owner, a class, a quantity, and the grams for one unit of it (rule 2.8).
ghost use Rattle.std.specs.Prelude.{◌≡◌};
ghost use Rattle.records.specs.Lines.{lines_allowed, owner_allowed, owner_kind_allowed};
ghost use Rattle.records.specs.FieldTests.{LineAllows};

use crate::class::Class;
use crate::counts::Counts;
use crate::plant::Plant;
use crate::segment::Segment;

#[derive(Clone, Copy)]
pub struct Line {
    // Whether a plant or a segment owns it, and which. Numbers, since the definitions speak of those of the file.
    pub owner_kind: u8,
    pub owner: u32,
    pub class: u8,
    pub quantity: u32,
    // In grams of CO2e for one unit of the quantity.
    pub factor: u32,
}

impl Line {
    // The most lines that a period has; it may have none (rule 2.3).
    pub const MOST: usize = 512;
    // The numbers of its record in the file, and the most bytes that they take, field by field.
    pub const FIELDS: usize = 5;

    pub const BYTES: usize = 1 + 1 + 1 + 5 + 5;
    // The most grams that one owner's lines add up to (rule 8.5).
    pub const MOST_GRAMS: u64 = 4_000_000_000_000;

    // Whether a period may have that many lines (rule 2.3).
    pub(crate) fn count_allowed(count: u64) -> bool
        ensures { result ≡ lines_allowed count }
    {
        count <= Line::MOST as u64
    }

    // Whether the field at an index of a line's record allows a value, by the numbers before it (rules 2.8 and 3.1 to 3.3).
    pub fn allows(field: usize, value: u64, earlier: [u64; Line::FIELDS], counts: Counts) -> bool
        ensures { LineAllows counts earlier field value result }
    {
        match field {
            0 => Line::owner_kind_allowed(value),
            1 => Line::owner_allowed(value, earlier[0], counts),
            2 => Class::allowed(value, earlier[0]),
            4 => Class::factor_allowed(earlier[2], value),
            _ => true,
        }
    }

    // Whether there is such a kind of owner (rule 2.8).
    fn owner_kind_allowed(owner_kind: u64) -> bool
        ensures { result ≡ owner_kind_allowed owner_kind }
    {
        owner_kind <= Segment::OWNER_KIND
    }

    // Whether there is such a plant or segment (rule 2.8).
    fn owner_allowed(owner: u64, owner_kind: u64, counts: Counts) -> bool
        ensures { result ≡ owner_allowed counts owner_kind owner }
    {
        match owner_kind {
            Plant::OWNER_KIND => (1..=counts.plants).contains(&owner),
            Segment::OWNER_KIND => (1..=counts.segments).contains(&owner),
            _ => false,
        }
    }
}
