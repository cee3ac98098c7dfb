// What the segments charge to a plant, by the amounts that it brought (rule 6.1).
ghost use Rattle.std.specs.Prelude.{◌≡◌, ◌*◌, ◌≤◌, ◌<◌};
ghost use Rattle.number.specs.Groups.{largest};
ghost use Rattle.records.specs.Segments.{most_segments};
ghost use Rattle.settling.specs.Inside.{Chargeable, charges_by, Small};

use crate::arithmetic::rounded_up;
use crate::flow::Books;
use gathering::Emissions;

impl Books {
    // What the first `segments` segments, which emit these kg, charge to the plant at an index (rule 6.1).
    pub(crate) fn charges(
        &self,
        p: usize,
        emissions: &[u64; Emissions::OWNERS],
        segments: usize,
    ) -> u64
        requires p_lt_plants { p < self.now.plants }
        requires segments_le_most_segments { segments ≤ most_segments }
        requires small { Small emissions.now }
        requires chargeable { Chargeable self.now p segments }
        ensures value { result ≡ charges_by self.now p emissions.now segments }
        ensures upper_bound { result ≤ segments * largest }
    {
        let mut charges = 0;
        for s in 0..segments {
            charges += rounded_up(
                self.amounts[p][s] as u64 * emissions[s],
                self.inflows[s] as u64,
            );
        }
        charges
    }
}
