// What is printed for a text: its period file, or a line that says why there is none (rule 16.5).
ghost use Rattle.std.specs.Prelude.{◌≡◌, option_copied};
ghost use Rattle.fields.specs.Written.{write_verdict};
ghost use Rattle.output.specs.HandedOver.{HandedOver};
ghost use Rattle.records.specs.Periods.{period};
ghost use Rattle.write.specs.Printed.{printed_write};

use fields::Refusal;
use output::{Text, print};
use records::Limits;
use typing::{Kind, put_answer};
use writing::write_period;

// Room for what is printed: the longest period file, which is longer than any line. So there is no 14 (rule 16.5).
pub(crate) const ROOM: usize = Limits::BYTES;

// Period files, as a kind of file.
struct PeriodFile;

impl Kind for PeriodFile {
    ghost verdict = { write_verdict period };

    fn write(numbers: &[u8], buffer: &mut [u8]) -> Result<usize, Refusal> {
        write_period(numbers, buffer)
    }
}

// Prints the answer to a text; answers what it printed, or nothing if it could not be written.
pub(crate) fn print_answer<'a>(
    rt: &HostRuntime,
    text: &[u8],
    answer: &'a mut Text<ROOM>,
) -> Option<&'a [u8]>
    requires { answer.old.end ≡ 0 }
    ensures { HandedOver (option_copied result) (printed_write text.now) }
{
    put_answer::<PeriodFile, ROOM>(answer, text);
    let room = &answer.room[..];
    print(rt, b"write", &room[..answer.end])
}
