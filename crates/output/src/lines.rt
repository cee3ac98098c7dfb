// Whole lines of a text: words and numbers, the line of a refused file, the rows of a table (rules 11.1 and 11.2).
ghost use Rattle.std.specs.Prelude.{◌∷◌};
ghost use Rattle.output.specs.Lines.{text_line, refusal_line, table_text};
ghost use Rattle.output.specs.Put.{Put};

use crate::text::{Text, put_byte, put_spaced, put_words, start};
use fields::Refusal;

impl<const N: usize> Text<N> {
    // Puts words, then each number with a space before it, and the end of the line (rule 11.1).
    pub fn put_line(&mut self, words: &[u8], numbers: &[u64])
        ensures { Put (text_line words.now numbers.now) self.old.end self.old.room self.new.end self.new.room }
    {
        self.end = put_line(&mut self.room, self.end, words, numbers);
    }

    // Puts the line of a refused file: R, the number of refusal, the place, the offset (rule 11.2).
    pub fn put_refusal(&mut self, refusal: Refusal)
        ensures { Put (refusal_line refusal) self.old.end self.old.room self.new.end self.new.room }
    {
        self.end = put_refusal(&mut self.room, self.end, refusal);
    }

    // Puts the rows of a table, each of `width` numbers; the records are numbered from 1 (rule 11.1).
    pub fn put_rows(&mut self, letter: &[u8], table: &[u64], width: usize)
        ensures { Put (table_text letter.now width table.now) self.old.end self.old.room self.new.end self.new.room }
    {
        self.end = put_rows(&mut self.room, self.end, letter, table, width);
    }
}

// Puts a line into a lent buffer at a byte, and answers the byte behind it: words, then each number with a space before it, and the end of the line (rule
// 11.1).
pub fn put_line(buffer: &mut [u8], at: usize, words: &[u8], numbers: &[u64]) -> usize
    ensures { Put (text_line words.now numbers.now) at buffer.old result buffer.new }
{
    let mut end = put_words(buffer, at, words);
    for number in numbers {
        end = put_spaced(buffer, end, *number);
    }
    put_byte(buffer, end, b'\n')
}

// Puts the line of a refused file: R, the number of refusal, the place, the offset (rule 11.2).
pub fn put_refusal(buffer: &mut [u8], at: usize, refusal: Refusal) -> usize
    ensures { Put (refusal_line refusal) at buffer.old result buffer.new }
{
    let number = u64::from(refusal.reason.number());
    let numbers = [number, refusal.place, refusal.offset];
    put_line(buffer, at, b"R", &numbers)
}

// Puts the rows of a table, each of `width` numbers; the records are numbered from 1 (rule 11.1).
pub fn put_rows(buffer: &mut [u8], at: usize, letter: &[u8], table: &[u64], width: usize) -> usize
    ensures { Put (table_text letter.now width table.now) at buffer.old result buffer.new }
{
    let mut end = start(buffer, at);
    if 0 < width {
        for (index, row) in table.chunks_exact(width).enumerate() {
            end = put_row(buffer, end, letter, index as u64 + 1, row);
        }
    }
    end
}

// Puts a row: its letter, its record's own number, and the row's numbers.
fn put_row(buffer: &mut [u8], at: usize, letter: &[u8], own: u64, numbers: &[u64]) -> usize
    ensures { Put (text_line letter.now (own ∷ numbers.now)) at buffer.old result buffer.new }
{
    let at = put_words(buffer, at, letter);
    let at = put_spaced(buffer, at, own);
    put_line(buffer, at, b"", numbers)
}
