// From a text to the list of its numbers, or to why these are not looked at (rule 16.5).
ghost use Rattle.std.specs.Prelude.{◌≡◌};
ghost use Rattle.typing.specs.declared.listing.Fault.TheVariants.{Stray};
ghost use Rattle.typing.specs.Promises.{ListTextPromise};

use crate::room::MOST_TEXT;
use typed::{Stray, read_text};

// Why the numbers of a text are not looked at: it is too long, or it has a stray byte (rule 16.3).
#[derive(Clone, Copy)]
pub enum Fault {
    Long,
    Stray(Stray),
}

impl From<Stray> for Fault {
    ghost from_gives = { λ stray r. r ≡ Stray stray };

    fn from(stray: Stray) -> Fault {
        Fault::Stray(stray)
    }
}

// Lists the numbers of a text from the start of a list on, and counts them, if it is not too long and has no stray byte (rules 16.2 and 16.5).
pub fn list_text(text: &[u8], list: &mut [u8]) -> Result<usize, Fault>
    ensures { ListTextPromise text.now list.old result list.new }
{
    if MOST_TEXT < text.len() {
        return Err(Fault::Long);
    }
    let count = read_text(text, list)?;
    Ok(count)
}
