// Room for a period file, as far as its bytes can change the answer (rule 9.2), and for the answer's text.
ghost use Rattle.std.specs.Prelude.{◌<◌, length};
ghost use Rattle.records.specs.Periods.{most_bytes};

use output::MOST_SPACED;
use period::{PLANT_NUMBERS, SEGMENT_NUMBERS};
use records::{Plant, Segment};

// The bytes of a row's letter and of the end of its line.
const ROW_SIGNS: usize = 2;

// The most bytes of a plant's row: these signs, its own number and the numbers of the row.
const PLANT_ROW: usize = ROW_SIGNS + MOST_SPACED * (1 + PLANT_NUMBERS);

// The same for a segment's row.
const SEGMENT_ROW: usize = ROW_SIGNS + MOST_SPACED * (1 + SEGMENT_NUMBERS);

// The rows of the most plants and segments. The longest file is shorter, so no byte that is not read changes the answer (rule 9.2).
pub(crate) const ROOM: usize = Plant::MOST * PLANT_ROW + Segment::MOST * SEGMENT_ROW;

// Zeros, with room for what is read.
pub(crate) fn room() -> [u8; ROOM]
    ensures { most_bytes < length result }
{
    [0; ROOM]
}
