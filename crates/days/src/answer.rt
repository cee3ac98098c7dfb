// The answer to a sheet, as text: its figures, or the line of a refused sheet (rule 12.10).
ghost use Rattle.std.specs.Prelude.{◌≡◌, ◌≤◌, length, option_copied};
ghost use Rattle.output.specs.Put.{Put};
ghost use Rattle.output.specs.HandedOver.{HandedOver};
ghost use Rattle.days.specs.Printed.{figures_text, printed_days, most_days_text};

use meter::{Figures, days};
use output::{Text, print};

// Prints the answer to a sheet from an empty text's room; answers what was printed, or nothing if it could not be written.
pub(crate) fn print_answer<'a, const N: usize>(
    rt: &HostRuntime,
    text: &'a mut Text<N>,
    sheet: &[u8],
) -> Option<&'a [u8]>
    requires empty { text.old.end ≡ 0 }
    requires room { most_days_text ≤ length text.old.room }
    ensures { HandedOver (option_copied result) (printed_days sheet.now) }
{
    put_answer(text, sheet);
    let room: &[u8] = &text.room;
    print(rt, b"days", &room[..text.end])
}

// Puts that text.
fn put_answer<const N: usize>(text: &mut Text<N>, sheet: &[u8])
    ensures { Put (printed_days sheet.now) text.old.end text.old.room text.new.end text.new.room }
{
    match days(sheet) {
        Ok(figures) => put_figures(text, figures),
        Err(refusal) => text.put_refusal(refusal),
    }
}

// Puts the line of the five figures: the sum, and behind it those of days, in the order of rules 12.2 to 12.6.
fn put_figures<const N: usize>(text: &mut Text<N>, figures: Figures)
    ensures { Put (figures_text figures) text.old.end text.old.room text.new.end text.new.room }
{
    text.put_number(figures.sum);
    let days = [
        figures.repeated,
        figures.repeated_zero,
        figures.longest,
        figures.first,
    ];
    text.put_line(b"", &days);
}
