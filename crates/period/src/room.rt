// The room in the tables, which is tested last of all (rules 8.7 and 8.9).
ghost use Rattle.period.specs.Written.{AnswerWithTablesPromise};

use crate::rows::{PLANT_NUMBERS, SEGMENT_NUMBERS};
use fields::{Answer, Reason, refused};

// The answer to a file that was settled, with these counts of plants and segments, tables of these lengths and this many bytes: a refusal is handed on
// (rules 8.7 and 8.9).
#[tactic(auto, unfolding(fields::specs::Tests::tested_by))]
pub fn answer_with_tables(
    settled: Answer,
    plants: u32,
    segments: u32,
    plant_table: usize,
    segment_table: usize,
    bytes: u64,
) -> Answer
    ensures { AnswerWithTablesPromise settled plants segments plant_table segment_table bytes result }
{
    settled?;
    let plants_need = PLANT_NUMBERS * plants as usize;
    if plant_table < plants_need {
        return refused(Reason::PlantTableShort, plants_need as u64, bytes);
    }
    let segments_need = SEGMENT_NUMBERS * segments as usize;
    if segment_table < segments_need {
        return refused(Reason::SegmentTableShort, segments_need as u64, bytes);
    }
    Ok(())
}
