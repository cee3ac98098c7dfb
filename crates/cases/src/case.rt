// The head of a case, which comes before its file: what is asked, and how many bytes the file has.
use input::read_input;
use output::complain;

// Where the parts of a head start, behind the byte of its kind: the asked byte, and the count.
const ASKED_START: usize = 1;

const COUNT_START: usize = ASKED_START + 8;

const HEAD_BYTES: usize = COUNT_START + 4;

// What is asked of a case's file.
#[derive(Drop)]
pub(crate) enum Kind {
    // What number is at the byte.
    Number { at: usize },
    // How it is read as a period file.
    Period,
}

// What is asked, and the count of the bytes of the file that follows.
#[derive(Drop)]
pub(crate) struct Head {
    pub(crate) kind: Kind,
    pub(crate) count: usize,
}

// Reads the head of the next case from standard input. None follows if the input has ended; a fault of it is said on standard error.
pub(crate) fn next_head(rt: &HostRuntime) -> Option<Head> {
    let mut head = [0u8; HEAD_BYTES];
    let bytes = read_input(rt, b"cases", &mut head)?;
    if bytes == 0 {
        return None;
    }
    if bytes < HEAD_BYTES {
        complain(
            rt,
            b"cases",
            b"the input ends inside a case's kind, asked byte and count",
        );
        return None;
    }
    head_of(rt, &head)
}

// What the bytes of a head say, least significant byte first. A kind that is neither letter is said on standard error.
fn head_of(rt: &HostRuntime, head: &[u8; HEAD_BYTES]) -> Option<Head> {
    let at = u64::from_le_bytes(head[ASKED_START..COUNT_START].try_into().unwrap()) as usize;
    let count = u32::from_le_bytes(head[COUNT_START..].try_into().unwrap()) as usize;
    let kind = match head[0] {
        b'N' => Kind::Number { at },
        b'P' => Kind::Period,
        _ => {
            complain(rt, b"cases", b"a case's kind is neither N nor P");
            return None;
        }
    };
    Some(Head { kind, count })
}
