// Where a number is in a file (rules 2.1, 8.2 and 8.9).
ghost use Rattle.fields.specs.Spots.{SpotFirstPromise, SpotRefusalPromise};

use crate::answer::Refusal;
use crate::reason::Reason;

// The byte where it starts, and its place: how many numbers come before it.
#[derive(Clone, Copy)]
pub struct Spot {
    pub byte: usize,
    pub place: u64,
}

impl Spot {
    // The spot of the first number of a file (rule 2.1).
    pub fn first() -> Spot
        ensures { SpotFirstPromise result }
    {
        Spot { byte: 0, place: 0 }
    }

    // The refusal of the number at this spot, with its place and its first byte (rules 8.2 and 8.9).
    pub fn refusal(self, reason: Reason) -> Refusal
        ensures { SpotRefusalPromise self reason result }
    {
        Refusal {
            reason,
            place: self.place,
            offset: self.byte as u64,
        }
    }
}
