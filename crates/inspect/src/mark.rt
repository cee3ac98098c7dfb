// The mark of the number at which a file is refused (rule 11.7).
ghost use Rattle.std.specs.Prelude.{◌≡◌};
ghost use Rattle.fields.specs.Answers.{said};
ghost use Rattle.output.specs.Put.{Put};
ghost use Rattle.inspect.specs.Page.{line_close, marked};

use fields::Answer;
use output::Text;

// Whether the number at a byte is that one: the offset of the refusal is its byte (rule 11.7).
pub(crate) fn is_marked(answer: Answer, byte: usize) -> bool
    ensures { result ≡ marked (said answer) byte }
{
    answer.is_err_and(|refusal| refusal.offset == byte as u64)
}

// Puts the end of a number's line, with the mark if it is that one (rule 11.7).
pub(crate) fn put_close<const N: usize>(text: &mut Text<N>, is_marked: bool)
    ensures { Put (line_close is_marked) text.old.end text.old.room text.new.end text.new.room }
{
    if is_marked {
        text.put_words(b" <--");
    }
    text.put_words(b"\n");
}
