// How long a text may be, and room for it and for its numbers (rule 16.5).
ghost use Rattle.typing.specs.Promises.{ListRoomPromise, TextRoomPromise};

use plain::NUMBER_BYTES;

// The most bytes of a text.
pub(crate) const MOST_TEXT: usize = 131_071;

// One byte more: no byte behind it changes the answer.
pub const TEXT_ROOM: usize = MOST_TEXT + 1;

// A number takes a digit and, but for the last, a byte that ends it: so no text has more numbers than these.
const MOST_NUMBERS: usize = (MOST_TEXT + 1) / 2;

pub const LIST_ROOM: usize = NUMBER_BYTES * MOST_NUMBERS;

// Zeros, with room for a text as far as its bytes can change the answer.
pub fn text_room() -> [u8; TEXT_ROOM]
    ensures { TextRoomPromise result }
{
    [0; TEXT_ROOM]
}

// Zeros, with room for the numbers of every text that is not too long.
pub fn list_room() -> [u8; LIST_ROOM]
    ensures { ListRoomPromise result }
{
    [0; LIST_ROOM]
}
