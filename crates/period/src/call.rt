// The call: a period file and two lent tables in, the answer out, and the rows in the tables (rules 8.8 and 10.1 to 10.4).
ghost use Rattle.period.specs.Written.{lent, QuantifyPromise};

use crate::room::answer_with_tables;
use crate::rows::{PLANT_NUMBERS, SEGMENT_NUMBERS, write_rows};
use fields::Refusal;
use settling::settle;

// How many numbers of each table were written (rules 10.1 and 10.2).
#[derive(Clone, Copy)]
pub struct Quantified {
    pub plant_numbers: usize,
    pub segment_numbers: usize,
}

// Answers any file with any tables: a refusal leaves both alone; acceptance writes the rows from their start (rules 8.8 and 10.1 to 10.4).
pub fn quantify(
    file: &[u8],
    plant_table: &mut [u64],
    segment_table: &mut [u64],
) -> Result<Quantified, Refusal>
    ensures { QuantifyPromise file.now (lent plant_table.old segment_table.old) result (lent plant_table.new segment_table.new) }
{
    let settled = settle(file)?;
    answer_with_tables(
        Ok(()),
        settled.plant_count,
        settled.segment_count,
        plant_table.len(),
        segment_table.len(),
        file.len() as u64,
    )?;
    let plants = &settled.plants[..settled.plant_count as usize];
    let segments = &settled.segments[..settled.segment_count as usize];
    write_rows(plant_table, plants);
    write_rows(segment_table, segments);
    Ok(Quantified {
        plant_numbers: PLANT_NUMBERS * plants.len(),
        segment_numbers: SEGMENT_NUMBERS * segments.len(),
    })
}
