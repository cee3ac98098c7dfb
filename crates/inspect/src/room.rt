// Room for the lines of the inspector's page (rules 11.6 and 11.7).
use names::MOST_FIELD_WORDS;
use number::Number;
use output::{BYTE_TEXT, MOST_SPACED};

// How many numbers the longest text has, that of a fault: record, place and byte in its line, three in the R line and two in the F line.
const FAULT_NUMBERS: usize = 8;

// The bytes of the letters and ends of these two lines, of the sign for a value that is not there, and of the sign before its bytes.
const FAULT_SIGNS: usize = 7;

// The bytes of the mark and of the end of its line.
const MARK: usize = 5;

// The most bytes of a line of the page, and of the lines at its end together.
pub(crate) const MOST_TEXT: usize = MOST_FIELD_WORDS
    + MOST_SPACED * FAULT_NUMBERS
    + FAULT_SIGNS
    + BYTE_TEXT * Number::GROUPS
    + MARK;

// How many of the longest texts there is room for, so that not every line is printed by itself.
const TEXTS: usize = 10;

// Room for the lines that wait to be printed.
pub(crate) const ROOM: usize = TEXTS * MOST_TEXT;
