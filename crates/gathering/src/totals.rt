// The totals of the owners: the grams of their lines, in a column for each way in which classes count (rules 3.4, 4.2 and 4.4).
ghost use Rattle.std.specs.Prelude.{◌≡◌, ◌+◌, ◌<◌, ◌≤◌, get_or};
ghost use Rattle.records.specs.Plants.{most_plants};
ghost use Rattle.records.specs.Segments.{most_segments};
ghost use Rattle.records.specs.Within.{LineWithin, most_counts};
ghost use Rattle.fields.specs.Answers.{accepts, refuses, said};
ghost use Rattle.fields.specs.Tests.{listed, tested_by};
ghost use Rattle.accounts.specs.Emissions.{less_captured};
ghost use Rattle.gathering.specs.OwnerTotals.{counted_at, fuel_test_by, kg_column, no_totals, owner_place, owners, totals_with};

use crate::emissions::Emissions;
use fields::{Answer, Reason, refused};
use records::{Class, Line, Plant, Segment};

// The places of a column: those of the plants, and behind them those of the segments.
const PLACES: usize = Plant::MOST + Segment::MOST;

// What is added for each owner, what of it is fuel, and what is captured, in grams.
#[derive(Drop)]
pub(crate) struct Totals {
    added: [u64; PLACES],
    fuel: [u64; PLACES],
    captured: [u64; PLACES],
}

impl Totals {
    // Those of no line.
    pub(crate) fn new() -> Totals
        ensures { result ≡ no_totals }
    {
        Totals {
            added: [0; PLACES],
            fuel: [0; PLACES],
            captured: [0; PLACES],
        }
    }

    // Adds a line to its owner's totals, each by what the row of the line's class says, and gives what is added for that owner so far (rules 3.4, 4.1
    // and 4.2).
    pub(crate) fn add(&mut self, line: Line) -> u64
        requires { LineWithin most_counts 1 line }
        ensures with_line { self.new ≡ totals_with self.old (owner_place line.owner_kind line.owner) line }
        ensures total { result ≡ get_or self.new.added (owner_place line.owner_kind line.owner) 0 }
    {
        let owner = place_of(line);
        let class = Class::of(line.class as u64);
        let grams = line.quantity as u64 * line.factor as u64;
        count(&mut self.added, owner, class.added, grams);
        count(&mut self.fuel, owner, class.fuel, grams);
        count(&mut self.captured, owner, class.captured, grams);
        self.added[owner]
    }

    // 16, plant by plant: whether more is captured than its fuel gives (rule 8.10).
    pub(crate) fn test_captured(&self, count: usize, bytes: u64) -> Answer
        requires { count ≤ most_plants }
        ensures { said result ≡ tested_by refuses (listed (fuel_test_by bytes self.now) 0 count) accepts }
    {
        for p in 0..count {
            if self.fuel[p] < self.captured[p] {
                return refused(Reason::CapturedOverFuel, p as u64 + 1, bytes);
            }
        }
        Ok(())
    }

    // The totals of `count` owners in kg, from the one at the place `first` on, and zeros behind them (rules 4.3 and 4.4).
    pub(crate) fn in_kg(&self, first: usize, count: usize) -> [u64; Emissions::OWNERS]
        requires count_bound { first + count ≤ most_plants + most_segments }
        requires count_le_most_segments { count ≤ most_segments }
        ensures { result ≡ kg_column self.now first count }
    {
        let mut kg = [0u64; Emissions::OWNERS];
        for o in 0..count {
            kg[o] = less_captured(self.added[first + o], self.captured[first + o]);
        }
        kg
    }
}

// Where the totals of a line's owner stand.
fn place_of(line: Line) -> usize
    requires { LineWithin most_counts 1 line }
    ensures { result ≡ owner_place line.owner_kind line.owner }
{
    Plant::MOST * line.owner_kind as usize + line.owner as usize - 1
}

// Adds a line's grams to its owner's total in a column, if they count there; past the limit it is counted no further (rule 9.3).
fn count(column: &mut [u64; PLACES], owner: usize, counts: bool, grams: u64)
    requires { owner < owners }
    ensures { column.new ≡ counted_at column.old owner counts grams }
{
    if counts {
        column[owner] = column[owner]
            .saturating_add(grams)
            .min(Line::MOST_GRAMS + 1);
    }
}

// A total in kg: what is captured is taken off, and then the rest is rounded up (rules 4.3 and 4.4).
fn less_captured(added: u64, captured: u64) -> u64
    ensures { result ≡ less_captured added captured }
{
    added.saturating_sub(captured).div_ceil(Class::GRAMS_IN_KG)
}
