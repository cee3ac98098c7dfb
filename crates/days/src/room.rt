// Room for a sheet, as far as its bytes can change the answer (rule 9.2), and for the answer's text.
ghost use Rattle.std.specs.Prelude.{◌+◌, ◌≡◌, length};
ghost use Rattle.meter.specs.Sheets.{most_sheet_bytes};

use meter::Sheet;
use output::MOST_SPACED;

// One byte more than the longest sheet: no byte behind it changes the answer (rule 9.2).
const ROOM: usize = Sheet::BYTES + 1;

// How many figures a sheet has (rules 12.2 to 12.6).
const FIGURES: usize = 5;

// The most bytes that are printed: the figures and the end of their line.
pub(crate) const TEXT: usize = MOST_SPACED * FIGURES + 1;

// Zeros, with room for what is read.
pub(crate) fn room() -> [u8; ROOM]
    ensures { most_sheet_bytes + 1 ≡ length result }
{
    [0; ROOM]
}
