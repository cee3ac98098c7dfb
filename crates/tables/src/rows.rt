// The rows of plants and of segments, from the start of a table on; later entries and spare bytes stay (rules 7.1, 7.2 and 10.5).
ghost use Rattle.std.specs.Prelude.{◌≡◌, ◌<◌, ◌≤◌, take};
ghost use mathlib.Core.List.{flat_map};
ghost use Rattle.accounts.specs.Order.{plant_row_numbers};
ghost use Rattle.plain.specs.Bytes.{bytes_overwritten};
ghost use Rattle.tables.specs.Rows.{rows_there, WritePlantsPromise, WriteSegmentsPromise};

use period::Row;
use plain::{NUMBER_BYTES, write_row};
use settling::{PlantAccount, SegmentAccount};

// Writes the rows of some plants, as far as there is room in the table (rules 7.1 and 10.5).
pub fn write_plants(table: &mut [u8], accounts: &[PlantAccount])
    ensures { WritePlantsPromise accounts.now table.old table.new }
{
    write_rows(table, accounts);
}

// The same for segments (rules 7.2 and 10.5).
pub fn write_segments(table: &mut [u8], accounts: &[SegmentAccount])
    ensures { WriteSegmentsPromise accounts.now table.old table.new }
{
    write_rows(table, accounts);
}

// Writes the rows of accounts of any kind, as far as there is room in the table. No row has more numbers than a plant's.
fn write_rows<A: Row<N>, const N: usize>(table: &mut [u8], accounts: &[A])
    requires some { 0 < N }
    requires few { N ≤ plant_row_numbers }
    ensures { table.new ≡ bytes_overwritten (flat_map A.numbers (take (rows_there N table.old) accounts.now)) table.old }
{
    let row_bytes = NUMBER_BYTES * N;
    let rows = (table.len() / row_bytes).min(accounts.len());
    for (i, account) in accounts[..rows].iter().enumerate() {
        write_row(table, row_bytes * i, &account.row());
    }
}
