// Which field of which record a number of the file is, by its place and by what the header tells (rule 11.5).
ghost use Rattle.inspector.specs.FieldsAt.{FieldAtPromise};

use records::{Counts, Header, Line, Plant, Segment};

// A field of the file. The fields of a record count from 0 in file order, the records of a kind from 1.
#[derive(Drop)]
pub enum Field {
    // Of the header: edition, plants, segments, lines.
    Header { field: u64 },
    // Of a plant: exported, first segment, origin fraction.
    Plant { number: u64, field: u64 },
    // Of a segment: kind, metered outflow, next segment.
    Segment { number: u64, field: u64 },
    // Of a line: owner kind, owner number, class, quantity, factor.
    Line { number: u64, field: u64 },
    // Behind the last number that the header announces.
    After,
    // Behind a header that is refused, so that it tells nothing.
    Untold,
}

// The field at a place, by what the header tells (rule 11.5). Each kind has a block of its own: they differ in the variant, so a step that they
// shared would hand back what has to be taken apart again.
pub fn field_at(header: Option<Counts>, place: u64) -> Field
    ensures { FieldAtPromise header place result }
{
    if place < Header::FIELDS as u64 {
        return Field::Header { field: place };
    }
    let Some(counts) = header else {
        return Field::Untold;
    };
    let index = place - Header::FIELDS as u64;
    let plant = index / Plant::FIELDS as u64;
    if plant < counts.plants {
        return Field::Plant {
            number: plant + 1,
            field: index % Plant::FIELDS as u64,
        };
    }
    let index = index - Plant::FIELDS as u64 * counts.plants;
    let segment = index / Segment::FIELDS as u64;
    if segment < counts.segments {
        return Field::Segment {
            number: segment + 1,
            field: index % Segment::FIELDS as u64,
        };
    }
    let index = index - Segment::FIELDS as u64 * counts.segments;
    let line = index / Line::FIELDS as u64;
    if line < counts.lines {
        return Field::Line {
            number: line + 1,
            field: index % Line::FIELDS as u64,
        };
    }
    Field::After
}
