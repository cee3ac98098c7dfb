// Where a byte of a text stands, from one byte to the next (rules 16.1 and 16.2).
ghost use Rattle.std.specs.Prelude.{◌≡◌, true};
ghost use Rattle.std.specs.Option.{option_to_list};
ghost use Rattle.typed.specs.Text.{after, ended_by, ending, grown, is_digit, is_foreign, is_stray, starts_number};
ghost use Rattle.typed.specs.Inside.{state_of};

use number::Number;

// The base of decimal numbers.
const TEN: u64 = 10;

// Between numbers, within a number that has this value so far, or within a remark.
// The three loops over a text carry it along in two lines each: an iterator would be longer, and one loop needs the state behind the last byte.
#[derive(Clone, Copy)]
pub(crate) enum Scan {
    Between,
    Within(u64),
    Remark,
}

impl Scan {
    // Behind a byte: a remark goes on up to the end of its line; elsewhere a digit goes on with the value (rule 16.2).
    #[tactic(auto, unfolding(crate::specs::Text::after))]
    pub(crate) fn behind(self, byte: u8) -> Scan
        ensures { state_of result ≡ after (state_of self) byte }
    {
        match (self, byte) {
            (Scan::Remark, b'\r' | b'\n') => Scan::Between,
            (Scan::Remark, _) => Scan::Remark,
            (Scan::Between, b'0'..=b'9') => Scan::Within(with_digit(0, byte)),
            (Scan::Within(value), b'0'..=b'9') => Scan::Within(with_digit(value, byte)),
            (_, b'#') => Scan::Remark,
            (_, _) => Scan::Between,
        }
    }

    // The number that a byte ends here: none if it is a digit (rule 16.2).
    pub(crate) fn ended_by(self, byte: u8) -> Option<u64>
        ensures { option_to_list result ≡ ended_by (state_of self) byte }
    {
        if byte.is_ascii_digit() {
            None
        } else {
            self.ending()
        }
    }

    // The same if no digit follows, as at the text's end (rule 16.2).
    pub(crate) fn ending(self) -> Option<u64>
        ensures { option_to_list result ≡ ending (state_of self) }
    {
        match self {
            Scan::Within(value) => Some(value),
            Scan::Between | Scan::Remark => None,
        }
    }

    // Whether a byte is stray here (rule 16.3).
    #[tactic(auto, unfolding(crate::specs::Text::is_stray))]
    pub(crate) fn is_stray(self, byte: u8) -> bool
        ensures { result ≡ is_stray (state_of self) byte }
    {
        match self {
            Scan::Between | Scan::Within(_) => is_foreign(byte),
            Scan::Remark => false,
        }
    }

    // Whether a number starts with a byte here (rule 16.4).
    #[tactic(auto, unfolding(crate::specs::Text::starts_number))]
    pub(crate) fn starts(self, byte: u8) -> bool
        ensures { result ≡ starts_number (state_of self) byte }
    {
        match self {
            Scan::Between => byte.is_ascii_digit(),
            Scan::Within(_) | Scan::Remark => false,
        }
    }
}

// Whether a byte is neither a digit nor a space, nor starts a remark (rules 16.1 and 16.3).
fn is_foreign(byte: u8) -> bool
    ensures { result ≡ is_foreign byte }
{
    !matches!(byte, b'0'..=b'9' | b' ' | b'\t' | b'\r' | b'\n' | b'#')
}

// A value with one digit more; past the limit it is left as it is, so that it never wraps (rule 16.2).
fn with_digit(value: u64, byte: u8) -> u64
    requires { is_digit byte ≡ true }
    ensures { result ≡ grown value byte }
{
    if Number::LARGEST < value {
        return value;
    }
    TEN * value + u64::from(byte - b'0')
}
