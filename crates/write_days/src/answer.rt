// What is printed for a text: its sheet, or a line that says why there is none (rule 16.5).
ghost use Rattle.std.specs.Prelude.{◌≡◌, option_copied};
ghost use Rattle.fields.specs.Written.{write_verdict};
ghost use Rattle.output.specs.HandedOver.{HandedOver};
ghost use Rattle.meter.specs.Sheets.{sheet};
ghost use Rattle.write_days.specs.Printed.{printed_write_days};

use fields::Refusal;
use meter::Sheet;
use output::{Text, print};
use typing::{Kind, put_answer};
use writing::write_sheet;

// Room for what is printed: the longest sheet, which is longer than any line. So there is no 14 (rule 16.5).
pub(crate) const ROOM: usize = Sheet::BYTES;

// Sheets, as a kind of file.
struct SheetFile;

impl Kind for SheetFile {
    ghost verdict = { write_verdict sheet };

    fn write(numbers: &[u8], buffer: &mut [u8]) -> Result<usize, Refusal> {
        write_sheet(numbers, buffer)
    }
}

// Prints the answer to a text; answers what it printed, or nothing if it could not be written.
pub(crate) fn print_answer<'a>(
    rt: &HostRuntime,
    text: &[u8],
    answer: &'a mut Text<ROOM>,
) -> Option<&'a [u8]>
    requires { answer.old.end ≡ 0 }
    ensures { HandedOver (option_copied result) (printed_write_days text.now) }
{
    put_answer::<SheetFile, ROOM>(answer, text);
    let room = &answer.room[..];
    print(rt, b"write_days", &room[..answer.end])
}
