// Number reading: the number, or its fault, at a byte of a lent file, with its offset (rules 1.1 to 1.7).
//
// Every layer above reads its numbers through read_at, and uses only its promise and the laws of proofs/.
// No law above opens the definitions; worked examples do, to compute.
#![tactic(auto)]

pub mod bytes;
mod groups;
pub mod shortest;

ghost use Rattle.std.specs.Prelude.{◌<◌, ◌≡◌, length};
ghost use Rattle.number.specs.Reading.{read_at};
ghost use Rattle.number.specs.Finding.{finds, NumberRefusalPromise, ReadAtPromise};

pub use crate::bytes::bytes_at;
use crate::groups::Groups;
pub use crate::shortest::{size_of, write_at};

// A number that is there: its value, and the first byte behind it (rules 1.1 to 1.4).
#[derive(Clone, Copy)]
pub struct Number {
    pub value: u64,
    pub next: usize,
}

impl Number {
    // The most groups that a number has (rule 1.4).
    pub const GROUPS: usize = 5;
    // The largest value of a number (rule 1.4).
    pub const LARGEST: u64 = 4_000_000_000;
}

// Why there is no number: the first of the three faults that holds (rule 1.5).
#[derive(Clone, Copy)]
pub enum Fault {
    // Fault 1: the bytes end before the number does.
    Ends,
    // Fault 2: the number could be written shorter.
    NotShortest,
    // Fault 3: there are more groups than five, or the value is over the limit.
    TooLarge,
}

// What number reading reports: the number or its fault, and the offset of its first byte (rules 1.6 and 1.7).
#[derive(Clone, Copy)]
pub struct Report {
    pub number: Result<Number, Fault>,
    pub offset: usize,
}

impl Report {
    // The number of refusal of a fault, and 0 for a value (rule 8.1).
    pub fn refusal(self) -> u32
        ensures { NumberRefusalPromise self.number result }
    {
        match self.number {
            Ok(_) => 0,
            Err(Fault::Ends) => 1,
            Err(Fault::NotShortest) => 2,
            Err(Fault::TooLarge) => 3,
        }
    }
}

// What is at a byte of the file, with its offset (rules 1.1 to 1.7). Any byte may be asked for: past the end it is fault 1.
pub fn read_at(file: &[u8], at: usize) -> Report
    ensures { ReadAtPromise file.now at result }
{
    if file.len() <= at {
        return Report {
            number: Err(Fault::Ends),
            offset: file.len(),
        };
    }
    Report {
        number: number_at(file, at),
        offset: at,
    }
}

// The number, or its fault, at a byte that is there (rules 1.1 to 1.6).
fn number_at(file: &[u8], at: usize) -> Result<Number, Fault>
    requires { at < length file.now }
    ensures { finds result ≡ read_at file.now at }
{
    Groups::gather(&file[at..])?.form(at)
}
