// Text that is put together piece by piece: words, and numbers in decimal (rule 11.1).
ghost use Rattle.std.specs.Prelude.{[], ◌∷◌, option_copied};
ghost use Rattle.output.specs.Decimal.{decimal};
ghost use Rattle.output.specs.Lines.{spaced};
ghost use Rattle.output.specs.Put.{LeftPromise, NoTextPromise, Put, WholePromise};

// No number of 64 bits has more digits in decimal.
const MOST_DIGITS: usize = 20;

// The most bytes that a number takes, with the space before it.
pub const MOST_SPACED: usize = 1 + MOST_DIGITS;

// A text, and room for at most N bytes of it.
#[derive(Drop)]
pub struct Text<const N: usize> {
    pub room: [u8; N],
    // The byte behind the text; past the room if text is missing, of the last piece or of one before it.
    pub end: usize,
}

impl<const N: usize> Text<N> {
    // No text yet.
    pub fn new() -> Text<N>
        ensures { NoTextPromise N result.room result.end }
    {
        Text {
            room: [0; N],
            end: 0,
        }
    }

    // The text, if there was room for all of it.
    pub fn whole(&self) -> Option<&[u8]>
        ensures { WholePromise self.now.end self.now.room (option_copied result) }
    {
        if self.room.len() < self.end {
            return None;
        }
        Some(&self.room[..self.end])
    }

    // How many bytes more there is room for.
    pub fn left(&self) -> usize
        ensures { LeftPromise self.now.end self.now.room result }
    {
        self.room.len().saturating_sub(self.end)
    }

    // Puts words, or any bytes.
    pub fn put_words(&mut self, words: &[u8])
        ensures { Put words.now self.old.end self.old.room self.new.end self.new.room }
    {
        self.end = put_words(&mut self.room, self.end, words);
    }

    // Puts a number's decimal digits.
    pub fn put_number(&mut self, number: u64)
        ensures { Put (decimal number) self.old.end self.old.room self.new.end self.new.room }
    {
        self.end = put_number(&mut self.room, self.end, number);
    }

    // Puts a number with a space before it.
    pub fn put_spaced(&mut self, number: u64)
        ensures { Put (spaced number) self.old.end self.old.room self.new.end self.new.room }
    {
        self.end = put_spaced(&mut self.room, self.end, number);
    }
}

// Puts words, or any bytes, into a lent buffer at a byte, and answers the byte behind them.
pub fn put_words(buffer: &mut [u8], at: usize, words: &[u8]) -> usize
    ensures { Put words.now at buffer.old result buffer.new }
{
    let mut end = start(buffer, at);
    for byte in words {
        end = put_byte(buffer, end, *byte);
    }
    end
}

// Puts a number's decimal digits.
pub fn put_number(buffer: &mut [u8], at: usize, number: u64) -> usize
    ensures { Put (decimal number) at buffer.old result buffer.new }
{
    let mut digits = [0; MOST_DIGITS];
    let count = io::decimal(number, &mut digits);
    put_words(buffer, at, &digits[..count])
}

// Puts a number with a space before it.
pub fn put_spaced(buffer: &mut [u8], at: usize, number: u64) -> usize
    ensures { Put (spaced number) at buffer.old result buffer.new }
{
    let at = put_byte(buffer, at, b' ');
    put_number(buffer, at, number)
}

// Puts nothing: from past the buffer, text starts one byte past it.
pub(crate) fn start(buffer: &[u8], at: usize) -> usize
    ensures { Put [] at buffer.now result buffer.now }
{
    at.min(buffer.len() + 1)
}

// Puts one byte, if there is room for it.
pub(crate) fn put_byte(buffer: &mut [u8], at: usize, byte: u8) -> usize
    ensures { Put (byte ∷ []) at buffer.old result buffer.new }
{
    if buffer.len() <= at {
        return buffer.len() + 1;
    }
    buffer[at] = byte;
    at + 1
}
