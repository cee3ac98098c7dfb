// The entry that writes a period file, which the historian calls from C (rule 15.7).
ghost use Rattle.historian.specs.Lists.{WriteEntryPromise};

use fields::{refusal_number, refusal_place};
use writing::write_period;

// Writes the period file of any list into any buffer: number of refusal and place, both 0 if the list is accepted, and the count of bytes (rule 15.7;
// include/steeplecuff.h). Each number that a caller lends is a parameter, as the C interface has it.
#[unsafe(no_mangle)]
pub extern "C" fn steeplecuff_write(
    numbers: &[u8],
    buffer: &mut [u8],
    written: &mut u64,
    place: &mut u64,
) -> u32
    ensures { WriteEntryPromise numbers.now buffer.old (record { result = result; written = written.new; place = place.new; buffer = buffer.new }) }
{
    let bytes = write_period(numbers, buffer);
    *written = bytes.unwrap_or(0) as u64;
    let answer = bytes.map(|_bytes| ());
    *place = refusal_place(answer);
    refusal_number(answer)
}
