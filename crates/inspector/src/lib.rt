// The inspector's reader, which goes over a lent file from number to number (rule 11.3), and the names of fields (rule 11.5).
//
// The functions over the reader are thin, and leave the work to `number`.
#![tactic(auto)]

mod after;
pub mod field;
pub mod step;

ghost use Rattle.inspector.specs.Reader.{InspectorAtPromise, InspectorNewPromise, StepPromise};

use crate::after::after;
pub use crate::field::{Field, field_at};
pub use crate::step::{Step, step_at};
use number::{Report, read_at};

// A reader of a file.
#[derive(Drop)]
pub struct Inspector<'a> {
    // The lent file.
    pub file: &'a [u8],
    // The byte where its next number starts.
    pub at: usize,
}

impl<'a> Inspector<'a> {
    // A reader at the start of the file (rule 11.3).
    pub fn new(file: &'a [u8]) -> Inspector<'a>
        ensures { InspectorNewPromise file.entry result }
    {
        Inspector { file, at: 0 }
    }

    // Where it stands: the byte where its next number starts (rule 11.3).
    pub fn at(self) -> usize
        ensures { InspectorAtPromise self.entry result }
    {
        self.at
    }

    // Answers what number reading reports at its byte, and goes behind that number; at a fault or the end it stays (rule 11.3).
    pub fn step<'s>(&'s mut self) -> Report
        ensures { StepPromise self.old result self.new }
    {
        let report = read_at(self.file, self.at);
        self.at = after(report, self.at);
        report
    }
}
