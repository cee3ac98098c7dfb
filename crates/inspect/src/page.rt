// The inspector's page: a line for each number of a file, and then the end of the page (rules 11.6 and 11.7).
ghost use Rattle.output.specs.Put.{Put};
ghost use Rattle.inspect.specs.Page.{number_line};

use crate::ending::print_ending;
use crate::mark::{is_marked, put_close};
use crate::room::{MOST_TEXT, ROOM};
use fields::Spot;
use inspector::{Field, field_at, step_at};
use names::on_text::put_field;
use output::{Text, print};
use reading::{header_of, verdict};

// Walks a file, or the front of a cut one, up to the first step that finds no number. Lines wait in the text until its room is nearly full.
pub(crate) fn print_page(rt: &HostRuntime, file: &[u8], cut: bool) {
    let header = header_of(file);
    let answer = verdict(file);
    let mut text = Text::<ROOM>::new();
    let mut place = 0;
    let mut byte = 0;
    loop {
        let step = step_at(file, byte);
        let report = step.report;
        let spot = Spot { byte, place };
        let field = field_at(header, place);
        let Ok(number) = report.number else {
            print_ending(rt, &mut text, file, cut, spot, field);
            return;
        };
        let marked = is_marked(answer, byte);
        put_number_line(&mut text, spot, number.value, field, marked);
        if text.left() < MOST_TEXT {
            if print(rt, b"inspect", text.whole().unwrap()).is_none() {
                return;
            }
            text.end = 0;
        }
        place += 1;
        byte = step.at;
    }
}

// Puts the line of a number: its place, its byte, its value and its field, and the mark if it has it (rules 11.6 and 11.7).
fn put_number_line<const N: usize>(
    text: &mut Text<N>,
    spot: Spot,
    value: u64,
    field: Field,
    is_marked: bool,
)
    ensures { Put (number_line spot.place spot.byte value field is_marked) text.old.end text.old.room text.new.end text.new.room }
{
    text.put_number(spot.place);
    text.put_spaced(spot.byte as u64);
    text.put_spaced(value);
    put_field(text, field);
    put_close(text, is_marked);
}
