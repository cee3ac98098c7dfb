// The words for a field, put behind what a text has (rule 11.5).
ghost use Rattle.output.specs.Put.{Put};
ghost use Rattle.names.specs.FieldWords.{field_text};

use inspector::Field;
use output::Text;

// Puts which field of which record it is (rule 11.5).
pub fn put_field<const N: usize>(text: &mut Text<N>, field: Field)
    ensures { Put (field_text field) text.old.end text.old.room text.new.end text.new.room }
{
    text.end = crate::put_field(&mut text.room, text.end, field);
}
