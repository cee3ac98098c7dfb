// Where a reader stands after a step (rule 11.3).
ghost use Rattle.std.specs.Prelude.{◌≡◌};
ghost use Rattle.number.specs.Finding.{finds};
ghost use Rattle.number.specs.Counting.{end_of};

use number::Report;

// The byte behind the number that was found; after a fault the same byte.
pub(crate) fn after(report: Report, at: usize) -> usize
    ensures { result ≡ end_of at (finds report.number) }
{
    match report.number {
        Ok(number) => number.next,
        Err(_fault) => at,
    }
}
