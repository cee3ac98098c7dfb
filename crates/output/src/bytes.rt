// Bytes in hexadecimal, as byte viewers show them (rule 11.7).
ghost use Rattle.std.specs.Prelude.{◌<◌, ◌≡◌};
ghost use Rattle.output.specs.Hexadecimal.{byte_text, bytes_text, hex_digit, sixteen};
ghost use Rattle.output.specs.Put.{Put};

use crate::text::{Text, put_byte, start};

// How many bytes of text each byte takes: a space and two digits.
pub const BYTE_TEXT: usize = 3;

// The bases of decimal and hexadecimal digits.
const TEN: u8 = 10;

const SIXTEEN: u8 = 16;

impl<const N: usize> Text<N> {
    // Puts each byte as two digits, with a space before them (rule 11.7).
    pub fn put_bytes(&mut self, bytes: &[u8])
        ensures { Put (bytes_text bytes.now) self.old.end self.old.room self.new.end self.new.room }
    {
        self.end = put_bytes(&mut self.room, self.end, bytes);
    }
}

// Puts each byte so into a lent buffer at a byte, and answers the byte behind them.
pub fn put_bytes(buffer: &mut [u8], at: usize, bytes: &[u8]) -> usize
    ensures { Put (bytes_text bytes.now) at buffer.old result buffer.new }
{
    let mut end = start(buffer, at);
    for byte in bytes {
        end = put_two_digits(buffer, end, *byte);
    }
    end
}

// Puts one byte so.
fn put_two_digits(buffer: &mut [u8], at: usize, byte: u8) -> usize
    ensures { Put (byte_text byte) at buffer.old result buffer.new }
{
    let at = put_byte(buffer, at, b' ');
    let at = put_byte(buffer, at, digit_of(byte / SIXTEEN));
    put_byte(buffer, at, digit_of(byte % SIXTEEN))
}

// The byte of a hexadecimal digit.
fn digit_of(digit: u8) -> u8
    requires { digit < sixteen }
    ensures { result ≡ hex_digit digit }
{
    if digit < TEN {
        b'0' + digit
    } else {
        b'A' + (digit - TEN)
    }
}
