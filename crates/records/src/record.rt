// The kinds of records: what a loop over the numbers of one has to know of its kind (rules 2.2 and 8.3).
ghost use Rattle.std.specs.Prelude.{◌<◌, ◌≡◌, ◌≤◌, get_or, length, List, refl, take, ℕ};
ghost use Rattle.fields.specs.declared.reason.Reason.{Reason};
ghost use Rattle.fields.specs.declared.reason.Reason.TheVariants.{Ends};
ghost use Rattle.fields.specs.Readers.{allows_next, onward, Reader, return};
ghost use Rattle.fields.specs.Wanting.{Allowed, Wants};
ghost use Rattle.records.specs.Headers.{header, header_fields};
ghost use Rattle.records.specs.Plants.{plant_fields};
ghost use Rattle.records.specs.Segments.{segment_fields};
ghost use Rattle.records.specs.Lines.{line_fields};
ghost use Rattle.records.specs.Periods.{line, plant, segment};
ghost use Rattle.records.specs.Kinds.{header_reasons, header_wants, line_reasons, line_wants, plant_reasons, plant_wants, segment_reasons, segment_wants};
ghost use Rattle.std.proofs.Common.{lit≤};

use crate::counts::Counts;
use crate::header::Header;
use crate::line::Line;
use crate::plant::Plant;
use crate::segment::Segment;
use fields::Reason;

// The most numbers of a record of any kind: those of a line.
pub const MOST_FIELDS: usize = Line::FIELDS;

// What a record behind the header is tested by, besides the numbers before each: its own number, and the header's counts.
#[derive(Clone, Copy)]
pub struct Among {
    pub own: u64,
    pub counts: Counts,
}

// A kind of record: how many numbers it has, what each may be, why it is refused, and what they make (rules 2.2 and 8.3).
pub trait Record: Copy {
    // What it is tested by, besides its own numbers.
    type By: Copy;

    // The reader of such a record, and the reasons of its fields.
    ghost reader: { Self.By → Reader Self };

    ghost reasons: { List Reason };

    ghost FIELDS: { ℕ };

    // How many numbers it has.
    const FIELDS: usize;

    // Whether the field at an index allows a value, by the numbers before it.
    fn allows(field: usize, value: u64, earlier: [u64; MOST_FIELDS], by: Self::By) -> bool
        requires { field < FIELDS }
        ensures { result ≡ allows_next (onward (reader by) (take field earlier)) value };

    // The reason to refuse a value that the field at an index does not allow (rule 8.1).
    fn reason(field: usize) -> Reason
        requires { field < FIELDS }
        ensures { result ≡ get_or reasons field Ends };

    // The record of numbers that have passed their tests.
    fn made(values: [u64; MOST_FIELDS], by: Self::By) -> Self
        requires { Allowed (reader by) (take FIELDS values) }
        ensures { onward (reader by) (take FIELDS values) ≡ return result };

    // Each field has its reason; no kind has more numbers than a line; and its reader needs just these.
    ghost counted: { length reasons ≡ FIELDS };

    ghost few: { FIELDS ≤ line_fields };

    ghost wants: { (by : Self.By) → Wants reasons (reader by) };
}

impl Record for Counts {
    type By = ();

    ghost reader = { λ by. header };

    ghost reasons = { header_reasons };

    ghost FIELDS = { header_fields };

    const FIELDS: usize = Header::FIELDS;

    fn allows(field: usize, value: u64, _earlier: [u64; MOST_FIELDS], _by: ()) -> bool {
        Header::allows(field, value)
    }

    fn reason(field: usize) -> Reason {
        Header::reason(field)
    }

    // The edition tells nothing more once it is allowed.
    #[tactic(auto, using(crate::proofs::HeaderFields::header_made))]
    fn made(values: [u64; MOST_FIELDS], _by: ()) -> Counts {
        Counts {
            plants: values[1],
            segments: values[2],
            lines: values[3],
        }
    }

    ghost counted = { refl };

    ghost few = { lit≤ tt };

    ghost wants = { λ by. header_wants };
}

impl Record for Plant {
    type By = Among;

    ghost reader = { λ by. plant by.counts };

    ghost reasons = { plant_reasons };

    ghost FIELDS = { plant_fields };

    const FIELDS: usize = Plant::FIELDS;

    fn allows(field: usize, value: u64, _earlier: [u64; MOST_FIELDS], by: Among) -> bool {
        Plant::allows(field, value, by.counts)
    }

    fn reason(_field: usize) -> Reason {
        Reason::WrongPlant
    }

    #[tactic(auto, using(crate::proofs::RecordFields::plant_made, crate::proofs::RecordFields::plant_fits))]
    fn made(values: [u64; MOST_FIELDS], _by: Among) -> Plant {
        Plant {
            exported: values[0] as u32,
            first: values[1] as u32,
            fraction: values[2] as u32,
        }
    }

    ghost counted = { refl };

    ghost few = { lit≤ tt };

    ghost wants = { λ by. plant_wants by.counts };
}

impl Record for Segment {
    type By = Among;

    ghost reader = { λ by. segment by.counts by.own };

    ghost reasons = { segment_reasons };

    ghost FIELDS = { segment_fields };

    const FIELDS: usize = Segment::FIELDS;

    fn allows(field: usize, value: u64, earlier: [u64; MOST_FIELDS], by: Among) -> bool {
        let before = [earlier[0], earlier[1], earlier[2]];
        Segment::allows(field, value, before, by.own, by.counts)
    }

    fn reason(_field: usize) -> Reason {
        Reason::WrongSegment
    }

    #[tactic(auto, using(crate::proofs::RecordFields::segment_made, crate::proofs::RecordFields::segment_fits))]
    fn made(values: [u64; MOST_FIELDS], _by: Among) -> Segment {
        Segment {
            kind: values[0] as u8,
            outflow: values[1] as u32,
            next: values[2] as u32,
        }
    }

    ghost counted = { refl };

    ghost few = { lit≤ tt };

    ghost wants = { λ by. segment_wants by.counts by.own };
}

impl Record for Line {
    type By = Among;

    ghost reader = { λ by. line by.counts };

    ghost reasons = { line_reasons };

    ghost FIELDS = { line_fields };

    const FIELDS: usize = Line::FIELDS;

    fn allows(field: usize, value: u64, earlier: [u64; MOST_FIELDS], by: Among) -> bool {
        Line::allows(field, value, earlier, by.counts)
    }

    fn reason(_field: usize) -> Reason {
        Reason::WrongLine
    }

    #[tactic(auto, using(crate::proofs::RecordFields::line_made, crate::proofs::RecordFields::line_fits), unfolding(crate::specs::Classes::classes))]
    fn made(values: [u64; MOST_FIELDS], _by: Among) -> Line {
        Line {
            owner_kind: values[0] as u8,
            owner: values[1] as u32,
            class: values[2] as u8,
            quantity: values[3] as u32,
            factor: values[4] as u32,
        }
    }

    ghost counted = { refl };

    ghost few = { lit≤ tt };

    ghost wants = { λ by. line_wants by.counts };
}
