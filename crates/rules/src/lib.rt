// The types that the rules and the code share.
#![tactic(auto)]

use grammar::{Broken, SLOTS};
use graph::Trail;

// The most entries: what is lent beyond is never used.
pub const MOST_ENTRIES: usize = 4096;

#[derive(Clone, Copy, PartialEq, Eq)]
pub enum Answer {
    Noncircular,
    // The production at the root of the shown tree.
    Circular(u16),
    // A bad table: the rule that it breaks, with the record where the rule is of records.
    Refused(Broken),
    OutOfSteps,
    OutOfRoom,
}

// Where the answer is circular, `root` holds the entry numbers of the root's right symbols, and `circle` the circle of its compound graph;
// elsewhere both hold 0. They stand beside the answer, since the numbers of a report are promised whatever its answer is (`flats`).
#[derive(Clone, Copy, PartialEq, Eq)]
pub struct Report {
    pub answer: Answer,
    pub closures: u32,
    pub entries: u16,
    pub passes: u16,
    pub root: [u16; SLOTS],
    pub circle: Trail,
}

// A symbol with a graph, made by a production over earlier entries, one for each right symbol; unused slots are 0.
#[derive(Clone, Copy, PartialEq, Eq)]
pub struct Entry {
    pub symbol: u16,
    pub graph: u64,
    pub production: u16,
    pub kids: [u16; SLOTS],
}
