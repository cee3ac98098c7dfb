// Where the numbers of a text start (rule 16.4).
ghost use Rattle.typed.specs.Promises.{NumberStartPromise};

use crate::scan::Scan;

// The offset of the first digit of the number at a place, counted from 0; the text's length if there is no such number (rule 16.4).
pub fn number_start(text: &[u8], place: u64) -> usize
    ensures { NumberStartPromise text.now place result }
{
    let mut scan = Scan::Between;
    let mut before = place;
    for (offset, byte) in text.iter().enumerate() {
        if scan.starts(*byte) {
            if before == 0 {
                return offset;
            }
            before -= 1;
        }
        scan = scan.behind(*byte);
    }
    text.len()
}
