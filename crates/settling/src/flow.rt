// Inflow and credit: the plants' amounts on their way, in a table of plants by segments (rules 5.1 to 5.7).
// A plant has 0 at a segment that its route does not pass; a segment's set tells which plants pass it, also those that bring 0.
ghost use Rattle.std.specs.Prelude.{◌≡◌, ◌≤◌, ◌<◌, ℕ, suc, [], length, get_or, take};
ghost use Rattle.number.specs.Groups.{largest};
ghost use Rattle.fields.specs.Lists.{sum, Each};
ghost use Rattle.records.specs.Plants.{most_plants};
ghost use Rattle.records.specs.Segments.{most_segments};
ghost use Rattle.records.specs.Within.{PlantWithin, SegmentWithin, most_counts};
ghost use Rattle.accounts.specs.Flow.{credits as credits_of};
ghost use Rattle.accounts.specs.Accounts.{has_bit};

use crate::arithmetic::rounded_down;
use fields::{Answer, Reason, refused};
use number::Number;
use records::{Plant, Segment};

// The segment whose turn it is: its index, its record, what it emits in kg, and how many bytes were read.
#[derive(Clone, Copy)]
pub(crate) struct Due {
    pub(crate) index: usize,
    pub(crate) segment: Segment,
    pub(crate) emission: u64,
    pub(crate) bytes: u64,
}

impl Due {
    ghost use Rattle.settling.specs.Books.{Tested};

    // The tests of the segment with this inflow, in their order; a refusal has its number as place, and the length of what was read as offset
    // (rules 8.6 and 8.9).
    fn test(self, inflow: u64) -> Answer
        requires { self.index < most_segments }
        ensures { Tested self inflow result }
    {
        let own = self.index as u64 + 1;
        if Number::LARGEST < inflow {
            return refused(Reason::InflowTooLarge, own, self.bytes);
        }
        if inflow < self.segment.outflow as u64 {
            return refused(Reason::OutflowOverInflow, own, self.bytes);
        }
        if 0 < self.emission && inflow == 0 {
            return refused(Reason::EmissionWithoutInflow, own, self.bytes);
        }
        Ok(())
    }
}

// The books, while the segments have their turns.
#[derive(Drop)]
pub(crate) struct Books {
    // What each plant brings to each segment, by their indexes (rule 5.2).
    pub(crate) amounts: [[u32; Segment::MOST]; Plant::MOST],
    // How many plants there are. It stands here so that the table above is cleared by itself, which takes fewer instructions than all zeros at once.
    pub(crate) plants: usize,
    // Which plants pass each segment, and its inflow once it had its turn (rules 5.3 and 5.7).
    pub(crate) sets: [u32; Segment::MOST],
    pub(crate) inflows: [u32; Segment::MOST],
    // What is stored for each plant (rule 5.6).
    pub(crate) stored: [u32; Plant::MOST],
    ghost few: { plants ≤ most_plants },
    ghost rows: { length amounts ≡ most_plants },
    ghost columns: { (p : ℕ) → p < most_plants → length (get_or amounts p []) ≡ most_segments },
    ghost sets_sized: { length sets ≡ most_segments },
    ghost inflows_sized: { length inflows ≡ most_segments },
    ghost stored_sized: { length stored ≡ most_plants },
}

impl Books {
    ghost use Rattle.settling.specs.Books.{Blank, Brought, column, Sent, Started, Worked};

    // The books of so many plants, in which nothing is written yet.
    pub(crate) fn new(plants: usize) -> Books
        requires { plants ≤ most_plants }
        ensures { Blank plants result }
    {
        Books {
            amounts: [[0; Segment::MOST]; Plant::MOST],
            plants,
            sets: [0; Segment::MOST],
            inflows: [0; Segment::MOST],
            stored: [0; Plant::MOST],
        }
    }

    // Puts every plant's export at its first segment, and the plant into that segment's set (rules 5.2 and 5.7).
    #[tactic(auto, using(crate::proofs::Starting::first_least, crate::proofs::Starting::first_most))]
    pub(crate) fn start(&mut self, plants: &[Plant])
        requires blank { Blank (length plants.now) self.old }
        requires each { Each (PlantWithin most_counts) 1 plants.now }
        ensures { Started plants.now self.new }
    {
        for (p, plant) in plants.iter().enumerate() {
            let first = plant.first as usize;
            self.bring(p, first, plant.exported);
            self.sets[first - 1] |= 1 << p;
        }
    }

    // Works one segment: tests it, notes its inflow, and sends the plants of its set on with their credits (rules 5.3 to 5.7 and 8.6).
    pub(crate) fn work(&mut self, due: Due) -> Answer
        requires index { due.index < most_segments }
        requires segment { SegmentWithin most_counts (suc due.index) due.segment }
        ensures { Worked due self.old result self.new }
    {
        let s = due.index;
        let inflow = self.inflow(s);
        due.test(inflow)?;
        self.inflows[s] = inflow as u32;
        let credits = self.credits(s, inflow, due.segment.outflow as u64);
        let set = self.sets[s];
        let next = due.segment.next as usize;
        self.send(set, &credits, next);
        if next != 0 {
            self.sets[next - 1] |= set;
        }
        Ok(())
    }

    // The inflow of the segment at an index: what all plants bring. One whose route does not pass has 0 there (rule 5.3).
    fn inflow(&self, s: usize) -> u64
        requires { s < most_segments }
        ensures { result ≡ sum (column self.now s) }
    {
        // A loop: of a chain with `map` and `sum` it was not proved that the sum fits.
        let mut inflow = 0;
        for row in &self.amounts[..self.plants] {
            inflow += row[s] as u64;
        }
        inflow
    }

    // Every plant's credit at the segment at an index, plant after plant, by the running sums of the amounts (rule 5.4).
    fn credits(&self, s: usize, inflow: u64, outflow: u64) -> [u32; Plant::MOST]
        requires s_lt_most_segments { s < most_segments }
        requires inflow_value { inflow ≡ sum (column self.now s) }
        requires inflow_le_largest { inflow ≤ largest }
        requires outflow_le_inflow { outflow ≤ inflow }
        ensures { take self.now.plants result ≡ credits_of outflow (column self.now s) }
    {
        let mut credits = [0; Plant::MOST];
        // the sum of the amounts so far, and its part of the outflow
        let mut so_far = 0;
        let mut shared = 0;
        for (p, row) in self.amounts[..self.plants].iter().enumerate() {
            so_far += row[s] as u64;
            let part = rounded_down(so_far * outflow, inflow);
            credits[p] = (part - shared) as u32;
            shared = part;
        }
        credits
    }

    // Brings what was credited to the plants of a set to the next segment, by its number, or into the store (rules 5.5 and 5.6).
    fn send(&mut self, set: u32, credits: &[u32; Plant::MOST], next: usize)
        requires { next ≤ most_segments }
        ensures { Sent set credits.now next self.old self.new }
    {
        for p in 0..self.plants {
            if has(set, p) {
                self.bring(p, next, credits[p]);
            }
        }
    }

    // Notes what a plant brings to the segment with a number, or as stored for it if that is 0 (rules 5.5 and 5.6).
    fn bring(&mut self, p: usize, number: usize, amount: u32)
        requires p_lt_plants { p < self.old.plants }
        requires number_le_most_segments { number ≤ most_segments }
        ensures { Brought p number amount self.old self.new }
    {
        if number == 0 {
            self.stored[p] = amount;
        } else {
            self.amounts[p][number - 1] = amount;
        }
    }
}

// Whether a set has the plant at an index: whether that bit is set (rule 5.7).
fn has(set: u32, p: usize) -> bool
    requires { p < most_plants }
    ensures { result ≡ has_bit set p }
{
    set >> p & 1 == 1
}
