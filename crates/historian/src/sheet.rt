// The entry for a meter's sheet, which the historian calls from C (rules 10.8 and 12.9).
ghost use Rattle.historian.specs.Sheets.{five, leaves, DaysEntryPromise};

use fields::{refusal_number, refusal_offset, refusal_place};
use meter::days;

// Answers any sheet: number of refusal, place and offset, or 0, 0, 0 and the five figures if it is accepted (rules 10.8 and 12.9; include/steeplecuff.h).
// Each number that a caller lends is a parameter, as the C interface has it.
#[unsafe(no_mangle)]
pub extern "C" fn steeplecuff_days(
    sheet: &[u8],
    sum: &mut u64,
    repeated: &mut u64,
    repeated_zero: &mut u64,
    longest: &mut u64,
    first: &mut u64,
    place: &mut u64,
    offset: &mut u64,
) -> u32
    ensures { DaysEntryPromise
        sheet.now
        (five sum.old repeated.old repeated_zero.old longest.old first.old)
        (leaves result place.new offset.new (five sum.new repeated.new repeated_zero.new longest.new first.new)) }
{
    let found = days(sheet);
    if let Ok(figures) = found {
        *sum = figures.sum;
        *repeated = figures.repeated;
        *repeated_zero = figures.repeated_zero;
        *longest = figures.longest;
        *first = figures.first;
    }
    let answer = found.map(|_figures| ());
    *place = refusal_place(answer);
    *offset = refusal_offset(answer);
    refusal_number(answer)
}
