// Puts the words for a field into a text or a lent buffer (rule 11.5).
#![tactic(auto)]

ghost use Rattle.std.specs.Prelude.{◌++◌, ◌≡◌};
ghost use Rattle.output.specs.Lines.{spaced};
ghost use Rattle.output.specs.Put.{Put};
ghost use Rattle.names.specs.FieldWords.{field_text, field_words};

pub mod on_text;

use inspector::Field;
use output::{put_spaced, put_words};

// The most bytes of a field's words, without its record's number.
pub const MOST_FIELD_WORDS: usize = 24;

// Puts which field of which record it is into a lent buffer at a byte, and answers the byte behind it (rule 11.5).
pub fn put_field(buffer: &mut [u8], at: usize, field: Field) -> usize
    ensures { Put (field_text field) at buffer.old result buffer.new }
{
    let words = words(&field);
    match field {
        Field::Plant { number, .. } => put_record(buffer, at, b" plant", number, words),
        Field::Segment { number, .. } => put_record(buffer, at, b" segment", number, words),
        Field::Line { number, .. } => put_record(buffer, at, b" line", number, words),
        Field::Header { .. } | Field::After | Field::Untold => put_words(buffer, at, words),
    }
}

// Puts the words for a field of a record behind the record's name and number.
fn put_record(buffer: &mut [u8], at: usize, name: &[u8], number: u64, words: &[u8]) -> usize
    ensures { Put (name.now ++ spaced number ++ words.now) at buffer.old result buffer.new }
{
    let at = put_words(buffer, at, name);
    let at = put_spaced(buffer, at, number);
    put_words(buffer, at, words)
}

// The words for a field, without its record's name and number; the last of a record's are for all fields that are left.
fn words(field: &Field) -> &'static [u8]
    ensures { result.now ≡ field_words field.now }
{
    match field {
        Field::Header { field: 0 } => b" edition",
        Field::Header { field: 1 } => b" plants",
        Field::Header { field: 2 } => b" segments",
        Field::Header { .. } => b" lines",
        Field::Plant { field: 0, .. } => b" exported",
        Field::Plant { field: 1, .. } => b" first segment",
        Field::Plant { .. } => b" origin fraction",
        Field::Segment { field: 0, .. } => b" kind",
        Field::Segment { field: 1, .. } => b" metered outflow",
        Field::Segment { .. } => b" next segment",
        Field::Line { field: 0, .. } => b" owner kind",
        Field::Line { field: 1, .. } => b" owner number",
        Field::Line { field: 2, .. } => b" class",
        Field::Line { field: 3, .. } => b" quantity",
        Field::Line { .. } => b" factor",
        Field::After => b" after the last number",
        Field::Untold => b" not told by the header",
    }
}
