// The entry for a period file, which the historian calls from C, on bytes (rules 10.5 to 10.8).
ghost use Rattle.historian.specs.Tables.{EntryPromise, TablesAfter};

use fields::{Answer, refusal_number, refusal_offset, refusal_place};
use period::answer_with_tables;
use plain::room;
use settling::{Settled, settle_into};
use tables::{write_plants, write_segments};

// Answers any file with any tables: number of refusal, place and offset, all 0 if it is accepted (rules 10.2 to 10.8; include/steeplecuff.h).
// Each number that a caller lends is a parameter, as the C interface has it.
#[unsafe(no_mangle)]
pub extern "C" fn steeplecuff_quantify(
    file: &[u8],
    plants: &mut [u8],
    segments: &mut [u8],
    place: &mut u64,
    offset: &mut u64,
) -> u32
    ensures { EntryPromise file.now plants.old segments.old (record { result = result; place = place.new; offset = offset.new; plants = plants.new; segments = segments.new }) }
{
    let answer = write_tables(file, plants, segments);
    *place = refusal_place(answer);
    *offset = refusal_offset(answer);
    refusal_number(answer)
}

// Writes the rows of an accepted file into the tables, and leaves them alone if it is refused (rules 10.2 to 10.5).
fn write_tables(file: &[u8], plants: &mut [u8], segments: &mut [u8]) -> Answer
    ensures { TablesAfter file.now plants.old segments.old result plants.new segments.new }
{
    // Lent: a Result with the accounts would be copied, and the historian's stack is small.
    let mut settled = Settled::NOTHING;
    settle_into(file, &mut settled)?;
    answer_with_tables(
        Ok(()),
        settled.plant_count,
        settled.segment_count,
        room(plants.len()),
        room(segments.len()),
        file.len() as u64,
    )?;
    let plant_accounts = &settled.plants[..settled.plant_count as usize];
    let segment_accounts = &settled.segments[..settled.segment_count as usize];
    write_plants(plants, plant_accounts);
    write_segments(segments, segment_accounts);
    Ok(())
}
