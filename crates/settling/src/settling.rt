// A period settled: its file is gathered, and its segments have their turns in rising number (rules 5.1, 8.1 to 8.6 and 8.10).
ghost use Rattle.settling.specs.Settled.{SettleIntoPromise, SettlePromise};
ghost use Rattle.settling.specs.Inside.{Given, SettledInto};

use crate::account::{NO_PLANT_ACCOUNT, NO_SEGMENT_ACCOUNT, PlantAccount, SegmentAccount};
use crate::flow::{Books, Due};
use fields::{Answer, Refusal};
use gathering::{Gathered, gather};
use records::{Plant, Segment};

// What an accepted file gives before any table is looked at: how many plants and segments it has, and their accounts, with zeros behind the last.
#[derive(Drop)]
pub struct Settled {
    pub plant_count: u32,
    pub segment_count: u32,
    pub plants: [PlantAccount; Plant::MOST],
    pub segments: [SegmentAccount; Segment::MOST],
}

impl Settled {
    // No accounts yet: what a caller lends to `settle_into`.
    pub const NOTHING: Settled = Settled {
        plant_count: 0,
        segment_count: 0,
        plants: [NO_PLANT_ACCOUNT; Plant::MOST],
        segments: [NO_SEGMENT_ACCOUNT; Segment::MOST],
    };
}

// Settles a file of any length and content (rules 4.1 to 6.2, 8.1 to 8.6 and 8.10).
pub fn settle(file: &[u8]) -> Result<Settled, Refusal>
    ensures { SettlePromise file.now result }
{
    let mut settled = Settled::NOTHING;
    settle_into(file, &mut settled)?;
    Ok(settled)
}

// The same into what a caller lends, which a refusal leaves as it was: the historian has too little stack for the copies of a Result, one at each
// step up.
pub fn settle_into(file: &[u8], settled: &mut Settled) -> Answer
    ensures { SettleIntoPromise file.now settled.old result settled.new }
{
    // Lent: `?` alone would copy what was gathered.
    let gathered = gather(file);
    let gathered = gathered.as_ref().map_err(|refusal| *refusal)?;
    settle_period(gathered, settled)
}

// Settles a period that was gathered (rules 5.1 to 6.2). Not inlined, so that its books and what gathering needs are not on the stack together.
#[inline(never)]
fn settle_period(gathered: &Gathered, settled: &mut Settled) -> Answer
    requires { Given gathered.now }
    ensures { SettledInto gathered.now settled.old result settled.new }
{
    let plants = gathered.counts.plants as usize;
    let segments = gathered.counts.segments as usize;
    let mut books = Books::new(plants);
    books.start(&gathered.plants[..plants]);
    for (s, segment) in gathered.segments[..segments].iter().enumerate() {
        let due = Due {
            index: s,
            segment: *segment,
            emission: gathered.emissions.segments[s],
            bytes: gathered.emissions.bytes,
        };
        books.work(due)?;
    }
    settled.plant_count = plants as u32;
    settled.segment_count = segments as u32;
    settled.plants = books.plant_accounts(gathered);
    settled.segments = books.segment_accounts(gathered);
    Ok(())
}
