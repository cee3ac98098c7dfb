// The header (rules 2.3, 8.3 and 11.5).
ghost use Rattle.reading.specs.Found.{HeaderOfPromise, ReadHeaderPromise};

use crate::record::read_record;
use fields::{Refusal, Spot};
use records::Counts;

// Reads the header at the start of the file: its counts, and where the first record starts (rules 2.3 and 8.3).
pub fn read_header(file: &[u8]) -> Result<(Counts, Spot), Refusal>
    ensures { ReadHeaderPromise file.now result }
{
    read_record::<Counts>(file, Spot::first(), ())
}

// What the header of a file tells, whatever is behind it; nothing if it is refused (rules 2.3 and 11.5).
pub fn header_of(file: &[u8]) -> Option<Counts>
    ensures { HeaderOfPromise file.now result }
{
    read_header(file).ok().map(|(counts, _)| counts)
}
