// One step for a caller that holds a file and a byte, and no reader (rule 11.3).
ghost use Rattle.inspector.specs.Reader.{StepAtPromise};

use crate::Inspector;
use number::Report;

// What a step reports, and where the reader stands after it.
#[derive(Drop)]
pub struct Step {
    pub report: Report,
    pub at: usize,
}

// The step of a reader that stands at a byte of the file, which may be past its end (rule 11.3).
pub fn step_at(file: &[u8], at: usize) -> Step
    ensures { StepAtPromise file.now at result }
{
    let mut inspector = Inspector { file, at };
    let report = inspector.step();
    Step {
        report,
        at: inspector.at(),
    }
}
