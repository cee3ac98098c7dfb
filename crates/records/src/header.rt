// The header: the edition, and how many plants, segments and lines follow (rule 2.3).
ghost use Rattle.records.specs.FieldTests.{HeaderAllows, HeaderReason};

use crate::line::Line;
use crate::plant::Plant;
use crate::segment::Segment;
use fields::Reason;

// The name of its constants and tests. What it tells of the records behind it are `Counts`.
#[derive(Clone, Copy)]
pub struct Header;

impl Header {
    // The edition that is read here (rule 2.3).
    pub const EDITION: u64 = 1;
    // The numbers of the header, and the most bytes that they take, field by field.
    pub const FIELDS: usize = 4;

    pub const BYTES: usize = 1 + 1 + 1 + 2;

    // Whether the field at an index allows a value, whatever comes before it (rule 2.3).
    pub fn allows(field: usize, value: u64) -> bool
        ensures { HeaderAllows field value result }
    {
        match field {
            0 => value == Header::EDITION,
            1 => Plant::count_allowed(value),
            2 => Segment::count_allowed(value),
            3 => Line::count_allowed(value),
            _ => true,
        }
    }

    // The reason to refuse a value that the field at an index does not allow (rule 8.1).
    pub fn reason(field: usize) -> Reason
        ensures { HeaderReason field result }
    {
        match field {
            0 => Reason::WrongEdition,
            _ => Reason::WrongCount,
        }
    }
}
