// How a page ends: the line of a refused file, if reading refuses it, and a last line that says where the walk stopped (rules 11.6 and 11.7).
ghost use Rattle.std.specs.Prelude.{◌+◌, ◌≤◌, ◌≡◌, length};
ghost use Rattle.fields.specs.Answers.{said};
ghost use Rattle.number.specs.Finding.{finds};
ghost use Rattle.output.specs.Put.{Put};
ghost use Rattle.number.specs.Reading.{bytes_at};
ghost use Rattle.output.specs.Hexadecimal.{bytes_text};
ghost use Rattle.inspect.specs.Page.{closed_at, faulty_line, stop_of, stopped_at, verdict_text, stop_line, page_end, most_page_text};

use crate::mark::{is_marked, put_close};
use fields::{Answer, Spot};
use inspector::{Field, step_at};
use names::on_text::put_field;
use number::{Fault, Number, bytes_at};
use output::{Text, print};
use reading::verdict;

// Where a walk stops.
#[derive(Clone, Copy)]
enum Stop {
    // At a number that has a fault.
    Fault,
    // At the end of the file.
    End,
    // At the end of the bytes that are walked, if the file is longer.
    Cut,
}

// Prints the text that waits, and behind it the end of the page; the walk stopped at this spot and field.
pub(crate) fn print_ending<const N: usize>(
    rt: &HostRuntime,
    text: &mut Text<N>,
    file: &[u8],
    cut: bool,
    spot: Spot,
    field: Field,
)
    requires { text.old.end + most_page_text ≤ length text.old.room }
{
    put_ending(text, file, cut, spot, field);
    print(rt, b"inspect", text.whole().unwrap());
}

// Puts the end of the page: the line of a number that has a fault, the line of a refused file, and the stop (rules 11.6 and 11.7).
fn put_ending<const N: usize>(text: &mut Text<N>, file: &[u8], cut: bool, spot: Spot, field: Field)
    ensures { Put (page_end file.now cut spot.place spot.byte field) text.old.end text.old.room text.new.end text.new.room }
{
    let report = step_at(file, spot.byte).report;
    let answer = verdict(file);
    let stop = stop_of(report.number, cut, spot.byte == file.len());
    put_stopped_at(text, stop, file, spot, field);
    put_close_at(text, stop, is_marked(answer, spot.byte));
    put_verdict(text, answer);
    put_stop(text, stop, report.refusal() as u64, spot);
}

// The stop by what is found there. If the bytes end, the file is cut there, or all of it is walked, or it ends inside a number.
fn stop_of(found: Result<Number, Fault>, cut: bool, all_walked: bool) -> Stop
    ensures { result ≡ stop_of (finds found) cut all_walked }
{
    match found {
        Err(Fault::Ends) if cut => Stop::Cut,
        Err(Fault::Ends) if all_walked => Stop::End,
        _ => Stop::Fault,
    }
}

// Puts the line of the number where the walk stopped, if it has a fault, up to its end.
fn put_stopped_at<const N: usize>(
    text: &mut Text<N>,
    stop: Stop,
    file: &[u8],
    spot: Spot,
    field: Field,
)
    ensures { Put (stopped_at stop file.now spot.place spot.byte field) text.old.end text.old.room text.new.end text.new.room }
{
    match stop {
        Stop::Fault => put_faulty(text, file, spot, field),
        Stop::End | Stop::Cut => text.put_words(b""),
    }
}

// Puts the line of a number that has a fault, and so no value: its bytes are shown instead (rule 11.7).
fn put_faulty<const N: usize>(text: &mut Text<N>, file: &[u8], spot: Spot, field: Field)
    ensures { Put (faulty_line file.now spot.place spot.byte field) text.old.end text.old.room text.new.end text.new.room }
{
    text.put_number(spot.place);
    text.put_spaced(spot.byte as u64);
    text.put_words(b" -");
    put_field(text, field);
    text.put_words(b":");
    put_bytes_at(text, file, spot.byte);
}

// Puts the bytes that belong to the number at a byte of the file (rule 11.7).
fn put_bytes_at<const N: usize>(text: &mut Text<N>, file: &[u8], byte: usize)
    ensures { Put (bytes_text (bytes_at file.now byte)) text.old.end text.old.room text.new.end text.new.room }
{
    let count = bytes_at(file, byte);
    if count == 0 {
        text.put_bytes(b"");
    } else {
        text.put_bytes(&file[byte..byte + count]);
    }
}

// Puts the end of that line, if there is one (rule 11.7).
fn put_close_at<const N: usize>(text: &mut Text<N>, stop: Stop, is_marked: bool)
    ensures { Put (closed_at stop is_marked) text.old.end text.old.room text.new.end text.new.room }
{
    match stop {
        Stop::Fault => put_close(text, is_marked),
        Stop::End | Stop::Cut => text.put_words(b""),
    }
}

// Puts the line of a refused file (rule 11.2); nothing if it is accepted.
fn put_verdict<const N: usize>(text: &mut Text<N>, answer: Answer)
    ensures { Put (verdict_text (said answer)) text.old.end text.old.room text.new.end text.new.room }
{
    match answer {
        Ok(()) => text.put_words(b""),
        Err(refusal) => text.put_refusal(refusal),
    }
}

// Puts the last line: F with the fault and its place, or E or C with the counts of numbers and bytes before the stop (rule 11.6).
fn put_stop<const N: usize>(text: &mut Text<N>, stop: Stop, fault: u64, spot: Spot)
    ensures { Put (stop_line stop fault spot.place spot.byte) text.old.end text.old.room text.new.end text.new.room }
{
    match stop {
        Stop::Fault => text.put_line(b"F", &[fault, spot.place]),
        Stop::End => text.put_line(b"E", &[spot.place, spot.byte as u64]),
        Stop::Cut => text.put_line(b"C", &[spot.place, spot.byte as u64]),
    }
}
