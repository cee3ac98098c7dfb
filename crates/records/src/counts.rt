// How many records of each kind a period has.

// P, S and L, as the header says them (rule 2.3).
#[derive(Clone, Copy)]
pub struct Counts {
    pub plants: u64,
    pub segments: u64,
    pub lines: u64,
}
