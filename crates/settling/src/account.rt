// The figures that the rows of plants and segments are made of, one account for each (rules 7.1 and 7.2).
ghost use Rattle.std.specs.Prelude.{◌≡◌, ◌≤◌};
ghost use Rattle.records.specs.Segments.{most_segments};
ghost use Rattle.settling.specs.Inside.{Accountable, Given, plant_accounts_by, segment_accounts_by};

use crate::flow::Books;
use gathering::Gathered;
use records::{Plant, Segment};

// A plant's figures, in kg but for the fraction.
#[derive(Clone, Copy)]
pub struct PlantAccount {
    // What it exported, and its origin fraction, in millionths (rule 2.4).
    pub exported: u32,
    pub fraction: u32,
    // What is stored for it and what is associated with it (rules 5.6 and 6.2).
    pub stored: u32,
    pub associated: u64,
}

// A segment's figures, in kg but for the set.
#[derive(Clone, Copy)]
pub struct SegmentAccount {
    // Its inflow, its metered outflow and its emission (rules 2.5, 4.3 and 5.3).
    pub inflow: u32,
    pub outflow: u32,
    pub emission: u64,
    // The set of the plants whose routes pass it, plant 1 in the lowest bit (rule 5.7).
    pub plants: u32,
}

// What stands behind the last account of a plant, and of a segment.
pub(crate) const NO_PLANT_ACCOUNT: PlantAccount = PlantAccount {
    exported: 0,
    fraction: 0,
    stored: 0,
    associated: 0,
};

pub(crate) const NO_SEGMENT_ACCOUNT: SegmentAccount = SegmentAccount {
    inflow: 0,
    outflow: 0,
    emission: 0,
    plants: 0,
};

impl Books {
    // The accounts of the plants, and zeros behind them: what is associated with each is what it emits itself, and what it is charged on its route
    // (rule 6.2).
    pub(crate) fn plant_accounts(&self, gathered: &Gathered) -> [PlantAccount; Plant::MOST]
        requires given { Given gathered.now }
        requires accountable { Accountable gathered.now self.now }
        ensures { result ≡ plant_accounts_by gathered.now self.now }
    {
        let emissions = &gathered.emissions;
        let segments = gathered.counts.segments as usize;
        let mut accounts = [NO_PLANT_ACCOUNT; Plant::MOST];
        for (p, plant) in gathered.plants[..self.plants].iter().enumerate() {
            let charges = self.charges(p, &emissions.segments, segments);
            accounts[p] = PlantAccount {
                exported: plant.exported,
                fraction: plant.fraction,
                stored: self.stored[p],
                associated: emissions.plants[p] + charges,
            };
        }
        accounts
    }

    // The accounts of the segments, and zeros behind them.
    pub(crate) fn segment_accounts(&self, gathered: &Gathered) -> [SegmentAccount; Segment::MOST]
        requires { gathered.now.counts.segments ≤ most_segments }
        ensures { result ≡ segment_accounts_by gathered.now self.now }
    {
        let segments = gathered.counts.segments as usize;
        let mut accounts = [NO_SEGMENT_ACCOUNT; Segment::MOST];
        for (s, segment) in gathered.segments[..segments].iter().enumerate() {
            accounts[s] = SegmentAccount {
                inflow: self.inflows[s],
                outflow: segment.outflow,
                emission: gathered.emissions.segments[s],
                plants: self.sets[s],
            };
        }
        accounts
    }
}
