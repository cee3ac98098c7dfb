// The rows of plants and segments, and how they are written into a table of numbers (rules 7.1, 7.2 and 10.2).
ghost use Rattle.std.specs.Prelude.{◌≡◌, ℕ, ◌++◌, ◌*◌, ◌≤◌, List, length, drop};
ghost use mathlib.Core.List.{flat_map};
ghost use Rattle.accounts.specs.Order.{plant_row_numbers, segment_row_numbers};
ghost use Rattle.period.specs.Written.{PlantRowPromise, plant_row_of, SegmentRowPromise, segment_row_of};

use records::Plant;
use settling::{PlantAccount, SegmentAccount};

// How many numbers a plant's row has, and a segment's (rules 7.1 and 7.2).
pub const PLANT_NUMBERS: usize = 8;

pub const SEGMENT_NUMBERS: usize = 5;

// A unit is a tonne (rule 7.1).
const KG_IN_UNIT: u64 = 1000;

// A plant's row (rule 7.1).
pub fn plant_row(account: PlantAccount) -> [u64; PLANT_NUMBERS]
    ensures { PlantRowPromise account result }
{
    let exported = account.exported as u64;
    let stored = account.stored as u64;
    let gross = stored * account.fraction as u64 / Plant::LARGEST_FRACTION;
    let net = gross.saturating_sub(account.associated);
    [
        exported,
        stored,
        exported.saturating_sub(stored),
        gross,
        account.associated,
        net,
        net / KG_IN_UNIT,
        account.associated.saturating_sub(gross),
    ]
}

// A segment's row (rule 7.2).
pub fn segment_row(account: SegmentAccount) -> [u64; SEGMENT_NUMBERS]
    ensures { SegmentRowPromise account result }
{
    let inflow = account.inflow as u64;
    let outflow = account.outflow as u64;
    [
        inflow,
        outflow,
        inflow.saturating_sub(outflow),
        account.emission,
        account.plants as u64,
    ]
}

// A kind of account: the numbers of its row (rules 7.1 and 7.2).
pub trait Row<const N: usize>: Copy {
    ghost numbers: { Self → List ℕ };

    fn row(self) -> [u64; N]
        ensures { result ≡ numbers self };
}

impl Row<PLANT_NUMBERS> for PlantAccount {
    ghost numbers = { plant_row_of };

    fn row(self) -> [u64; PLANT_NUMBERS] {
        plant_row(self)
    }
}

impl Row<SEGMENT_NUMBERS> for SegmentAccount {
    ghost numbers = { segment_row_of };

    fn row(self) -> [u64; SEGMENT_NUMBERS] {
        segment_row(self)
    }
}

// Writes the rows of some accounts from the start of a table on, one after another (rule 10.2).
pub(crate) fn write_rows<A: Row<N>, const N: usize>(table: &mut [u64], accounts: &[A])
    requires { N * length accounts.now ≤ length table.old }
    ensures { table.new ≡ flat_map A.numbers accounts.now ++ drop (N * length accounts.now) table.old }
{
    for (i, account) in accounts.iter().enumerate() {
        let start = N * i;
        table[start..start + N].copy_from_slice(&account.row());
    }
}
