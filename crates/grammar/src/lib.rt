// The numbers and the records that a grammar table is made of, and what reading one gives: what the rules and the code share.
#![tactic(auto)]

// Of a table, in bytes: its header, and a record of each kind.
pub const HEADER_BYTES: usize = 24;

pub const SYMBOL_BYTES: usize = 2;

pub const PRODUCTION_BYTES: usize = 18;

pub const EDGE_BYTES: usize = 6;

// The most records of each kind.
pub const MOST_SYMBOLS: u16 = 256;

pub const MOST_PRODUCTIONS: u16 = 512;

pub const MOST_EDGES: u16 = 8192;

// The most attributes of a symbol, and the most right symbols of a production.
pub const ATTRIBUTES: usize = 8;

pub const SLOTS: usize = 7;

// The most occurrences of a production: its left symbol and the right ones.
pub const OCCURRENCES: usize = SLOTS + 1;

// The most nodes of a compound graph: an attribute of an occurrence each.
pub const NODES: usize = ATTRIBUTES * OCCURRENCES;

// Attributes 0 to `count` - 1; `mask` has a bit for each, set where it is inherited.
#[derive(Clone, Copy, PartialEq, Eq)]
pub struct Symbol {
    pub count: u8,
    pub mask: u16,
}

// Of the slots the first `n` are the right symbols.
#[derive(Clone, Copy, PartialEq, Eq)]
pub struct Production {
    pub left: u16,
    pub n: u16,
    pub slots: [u16; SLOTS],
}

// An attribute of an occurrence of a production: 0 is its left symbol, 1 to n are the right ones.
#[derive(Clone, Copy, PartialEq, Eq, PartialOrd, Ord)]
pub struct Node {
    pub occurrence: u8,
    pub attribute: u8,
}

// The target takes its value from the source.
#[derive(Clone, Copy, PartialEq, Eq, PartialOrd, Ord)]
pub struct Edge {
    pub production: u16,
    pub source: Node,
    pub target: Node,
}

// The counts of the records, and the start symbol.
#[derive(Clone, Copy, PartialEq, Eq)]
pub struct Header {
    pub symbols: u16,
    pub productions: u16,
    pub edges: u16,
    pub start: u16,
}

// Where the records of each kind begin, and where the last ends: as wide as in the table.
#[derive(Clone, Copy, PartialEq, Eq)]
pub struct Offsets {
    pub symbols: u32,
    pub productions: u32,
    pub edges: u32,
    pub total: u32,
}

// A rule, by its published number: those of the whole table, then those of its records. 6, 8 and 9 are no rules.
#[derive(Clone, Copy, PartialEq, Eq)]
pub enum Rule {
    HeaderShort = 1,
    Counts = 2,
    Offsets = 3,
    SymbolBad = 4,
    ProductionBad = 5,
    NotAbove = 7,
    NoSuchProduction = 10,
    NoOccurrence = 11,
    NoAttribute = 12,
    NotAllowed = 13,
}

// The rule that is broken, by its number; where it is a rule of records, with the number of the first bad one, counted from 0 in its own
// table. A number that is no rule's can stand here too: who prints or stores one takes any.
#[derive(Clone, Copy, PartialEq, Eq)]
pub enum Broken {
    Rule(u8),
    Record(u8, u16),
}
