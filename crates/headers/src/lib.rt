// The header of a table: how many records of each kind there are, and where they begin.
#![tactic(auto)]

ghost use Rattle.std.specs.Prelude.{◌≡◌};
ghost use Rattle.grammar.specs.Reading.{header_of, offsets_of};

use grammar::{EDGE_BYTES, HEADER_BYTES, Header, Offsets, PRODUCTION_BYTES, SYMBOL_BYTES};
use numbers::two_at;

// A header that is there whole is read out of a slice of its own length, which the compiler knows: then no byte is asked for whether it is
// there. That is so only where such a slice has a call of its own, so the reader is called twice.

fn header_from(bytes: &[u8]) -> Header
    ensures { result ≡ header_of bytes.now }
{
    Header {
        symbols: two_at(bytes, 0),
        productions: two_at(bytes, 2),
        edges: two_at(bytes, 4),
        start: two_at(bytes, 6),
    }
}

pub fn header_of(table: &[u8]) -> Header
    ensures { result ≡ header_of table.now }
{
    if HEADER_BYTES <= table.len() {
        header_from(&table[..HEADER_BYTES])
    } else {
        header_from(table)
    }
}

// By the counts of the header, and not by the offsets that it gives.
pub fn offsets_of(table: &[u8]) -> Offsets
    ensures { result ≡ offsets_of table.now }
{
    let h = header_of(table);
    let productions = HEADER_BYTES + SYMBOL_BYTES * usize::from(h.symbols);
    let edges = productions + PRODUCTION_BYTES * usize::from(h.productions);
    let total = edges + EDGE_BYTES * usize::from(h.edges);
    Offsets {
        symbols: HEADER_BYTES as u32,
        productions: productions as u32,
        edges: edges as u32,
        total: total as u32,
    }
}
