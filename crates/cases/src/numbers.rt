// The line of a number case: what number reading reports at the asked byte of its file (rules 1.6 and 1.7).
use crate::LineText;
use number::read_at;

// Puts the line of what is found at a byte: N, the value, its offset and the byte behind the number; or R, the number of refusal, the asked byte and
// the offset.
pub(crate) fn put_found(text: &mut LineText, file: &[u8], at: usize) {
    let report = read_at(file, at);
    let offset = report.offset as u64;
    match report.number {
        Ok(number) => {
            let numbers = [number.value, offset, number.next as u64];
            text.put_line(b"N", &numbers);
        }
        Err(_) => {
            let numbers = [u64::from(report.refusal()), at as u64, offset];
            text.put_line(b"R", &numbers);
        }
    }
}
