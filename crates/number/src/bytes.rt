// The bytes that belong to a number, or to its fault (rule 1.8).
ghost use Rattle.std.specs.Prelude.{◌≡◌, position};
ghost use Rattle.number.specs.Finding.{BytesAtPromise};
ghost use Rattle.number.specs.Inside.{is_last};

use crate::Number;
use crate::groups::RADIX;

// How many bytes from a byte of the file on belong to what number reading finds there (rule 1.8): none at the end and past it.
pub fn bytes_at(file: &[u8], at: usize) -> usize
    ensures { BytesAtPromise file.now at result }
{
    let Some(bytes) = file.get(at..) else {
        return 0;
    };
    let most = &bytes[..Number::GROUPS.min(bytes.len())];
    match last_in(most) {
        Some(last) => last + 1,
        None => most.len(),
    }
}

// The index of the first byte after which none follows (rule 1.1).
fn last_in(bytes: &[u8]) -> Option<usize>
    ensures { result ≡ position is_last bytes.now }
{
    bytes.iter().position(|byte| u64::from(*byte) < RADIX)
}
