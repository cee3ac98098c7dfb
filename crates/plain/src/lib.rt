// Plain numbers of 64 bits in a caller's bytes: eight bytes to a number, the lowest in front; spare bytes do not count (rule 10.5).
//
// A C caller lends its tables and its lists so. A list has as many numbers as are whole.
#![tactic(auto)]

ghost use Rattle.std.specs.Prelude.{◌+◌, ◌*◌, ◌≤◌, ◌≡◌, length};
ghost use Rattle.std.proofs.lemmas.List.Edits.{sets};
ghost use Rattle.plain.specs.Bytes.{eight_bytes, number_bytes, row_between, PlainAtPromise, RoomPromise, WritePlainPromise, WriteRowPromise};

// The bytes of a number.
pub const NUMBER_BYTES: usize = 8;

// How many whole numbers `bytes` bytes have, or have room for (rule 10.5).
pub fn room(bytes: usize) -> usize
    ensures { RoomPromise bytes result }
{
    bytes / NUMBER_BYTES
}

// The number at an index, and 0 behind the last (rule 10.5).
pub fn plain_at(table: &[u8], index: usize) -> u64
    ensures { PlainAtPromise table.now index result }
{
    let (numbers, _) = table.as_chunks::<NUMBER_BYTES>();
    match numbers.get(index) {
        Some(bytes) => u64::from_le_bytes(*bytes),
        None => 0,
    }
}

// Writes the eight bytes of a number from a byte on, if there is room for them (rule 10.5).
pub fn write_plain(table: &mut [u8], at: usize, number: u64)
    ensures { WritePlainPromise table.old at number table.new }
{
    if table.len() < NUMBER_BYTES || table.len() - NUMBER_BYTES < at {
        return;
    }
    set_number(table, at, number);
}

// Writes the numbers of a row from a byte on, if there is room for all of them (rule 10.5).
pub fn write_row(table: &mut [u8], at: usize, row: &[u64])
    ensures { WriteRowPromise row.now at table.old table.new }
{
    if table.len() < at || room(table.len() - at) < row.len() {
        return;
    }
    fill_row(table, at, row);
}

// Writes them where there is room.
fn fill_row(table: &mut [u8], at: usize, row: &[u64])
    requires { at + number_bytes * length row.now ≤ length table.old }
    ensures { table.new ≡ row_between table.old at row.now }
{
    for (n, number) in row.iter().enumerate() {
        set_number(table, at + NUMBER_BYTES * n, *number);
    }
}

// Writes the eight bytes of one number, the lowest first.
fn set_number(table: &mut [u8], at: usize, number: u64)
    requires { at + number_bytes ≤ length table.old }
    ensures { table.new ≡ sets table.old at (eight_bytes number) }
{
    table[at..at + NUMBER_BYTES].copy_from_slice(&number.to_le_bytes());
}
