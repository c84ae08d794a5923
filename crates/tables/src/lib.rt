// What stands at a number in a table. Who reads a table finds here too what its header says.
#![tactic(auto)]

ghost use Rattle.std.specs.Prelude.{◌≡◌, ◌+◌, ◌*◌, ◌^◌, ◌≤◌, ◌<◌, take, drop};
ghost use Rattle.grammar.specs.Grammar.{symbol, production};
ghost use Rattle.grammar.specs.Table.{production_in, node_in, edge_in, grammar_of};
ghost use Rattle.grammar.specs.Rules.{no_edge};
ghost use Rattle.grammar.specs.Search.{further, seek};
ghost use Rattle.grammar.specs.Reading.{header_of, offsets_of, edge_at, run_of};

use grammar::{
    EDGE_BYTES, Edge, HEADER_BYTES, Header, Node, Offsets, PRODUCTION_BYTES, Production, SLOTS,
    SYMBOL_BYTES, Symbol,
};
pub use headers::{header_of, offsets_of};
use numbers::{byte_at, smaller, two_at};

// A record that is there whole is read out of a slice of its own length, which the compiler knows: then no byte is asked for whether it is
// there. That is so only where such a slice has a call of its own, so each reader is called twice.

// The symbol of a number, and one without attributes where there is none.
pub fn symbol_of(table: &[u8], s: usize) -> Symbol
    ensures { result ≡ symbol (grammar_of table.now) s }
{
    let h = header_of(table);
    if usize::from(h.symbols) <= s {
        return Symbol { count: 0, mask: 0 };
    }
    let at = HEADER_BYTES + SYMBOL_BYTES * s;
    Symbol {
        count: byte_at(table, at),
        mask: u16::from(byte_at(table, at + 1)),
    }
}

// The part of a table of `size` bytes at `at`, as far as it is there.
fn part_of(table: &[u8], at: usize, size: usize) -> &[u8]
    requires { at + size < 2 ^ 64 }
    ensures { result.now ≡ take size (drop at table.now) }
{
    let whole = table.len();
    &table[smaller(at, whole)..smaller(at + size, whole)]
}

fn production_from(bytes: &[u8]) -> Production
    ensures { result ≡ production_in bytes.now 0 }
{
    let slots = [
        two_at(bytes, 4),
        two_at(bytes, 6),
        two_at(bytes, 8),
        two_at(bytes, 10),
        two_at(bytes, 12),
        two_at(bytes, 14),
        two_at(bytes, 16),
    ];
    Production {
        left: two_at(bytes, 0),
        n: two_at(bytes, 2),
        slots,
    }
}

fn production_in(table: &[u8], at: usize) -> Production
    requires { at + 18 < 2 ^ 64 }
    ensures { result ≡ production_in table.now at }
{
    let end = at + PRODUCTION_BYTES;
    if end <= table.len() {
        production_from(&table[at..end])
    } else {
        production_from(part_of(table, at, PRODUCTION_BYTES))
    }
}

// The production of a number, and 0 with no right symbol where there is none.
pub fn production_of(table: &[u8], p: usize) -> Production
    ensures { result ≡ production (grammar_of table.now) p }
{
    let h = header_of(table);
    if usize::from(h.productions) <= p {
        let slots = [0u16; SLOTS];
        return Production {
            left: 0,
            n: 0,
            slots,
        };
    }
    let o = offsets_of(table);
    production_in(table, o.productions as usize + PRODUCTION_BYTES * p)
}

fn node_in(bytes: &[u8], at: usize) -> Node
    requires { at + 1 < 2 ^ 64 }
    ensures { result ≡ node_in bytes.now at }
{
    Node {
        occurrence: byte_at(bytes, at),
        attribute: byte_at(bytes, at + 1),
    }
}

fn edge_from(bytes: &[u8]) -> Edge
    ensures { result ≡ edge_in bytes.now 0 }
{
    let source = node_in(bytes, 2);
    let target = node_in(bytes, 4);
    Edge {
        production: two_at(bytes, 0),
        source,
        target,
    }
}

fn edge_in(table: &[u8], at: usize) -> Edge
    requires { at + 6 < 2 ^ 64 }
    ensures { result ≡ edge_in table.now at }
{
    let end = at + EDGE_BYTES;
    if end <= table.len() {
        edge_from(&table[at..end])
    } else {
        edge_from(part_of(table, at, EDGE_BYTES))
    }
}

fn no_edge() -> Edge
    ensures { result ≡ no_edge }
{
    Edge {
        production: 0,
        source: Node {
            occurrence: 0,
            attribute: 0,
        },
        target: Node {
            occurrence: 0,
            attribute: 0,
        },
    }
}

// The edge record i of a table. Past the end of the table all its numbers are 0.
pub fn edge_at(table: &[u8], i: usize) -> Edge
    ensures { result ≡ edge_at table.now i }
{
    if table.len() / EDGE_BYTES < i {
        return no_edge();
    }
    let o = offsets_of(table);
    edge_in(table, o.edges as usize + EDGE_BYTES * i)
}

// One step of the search for the first edge that is not of a production below p.
fn step_further(table: &[u8], h: Header, o: Offsets, p: usize, step: usize, at: usize) -> usize
    requires { (h ≡ header_of table.now) × (o ≡ offsets_of table.now) × (1 ≤ step) × (step < 65536) × (at ≤ h.edges) }
    ensures { result ≡ further table.now p step at }
{
    let next = at + step;
    if usize::from(h.edges) < next {
        return at;
    }
    let last = two_at(table, o.edges as usize + EDGE_BYTES * (next - 1));
    if usize::from(last) < p { next } else { at }
}

// From the edge `from` on, the first that is not of a production below p, by halving. The table is bytes, in which no slice of records
// stands that a library's search would go over.
fn seek_from(table: &[u8], h: Header, o: Offsets, p: usize, from: usize) -> usize
    requires { (h ≡ header_of table.now) × (o ≡ offsets_of table.now) × (from ≤ h.edges) }
    ensures { (result ≡ seek 16 table.now p from) × (from ≤ result) × (result ≤ h.edges) }
{
    let mut at = from;
    for k in (0..16usize).rev() {
        at = step_further(table, h, o, p, 1usize << k, at);
    }
    at
}

// The edges of a production: one unbroken run of the table, handed out where it stands.
pub fn run_of(table: &[u8], p: usize) -> &[u8]
    ensures { result.now ≡ run_of table.now p }
{
    let h = header_of(table);
    if usize::from(h.productions) <= p {
        return &table[..0];
    }
    let o = offsets_of(table);
    let first = seek_from(table, h, o, p, 0);
    let end = seek_from(table, h, o, p + 1, first);
    part_of(
        table,
        o.edges as usize + EDGE_BYTES * first,
        EDGE_BYTES * (end - first),
    )
}
