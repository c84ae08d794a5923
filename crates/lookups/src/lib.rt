// Where an entry is first found in a lent row.
#![tactic(auto)]

ghost use Rattle.std.specs.Prelude.{◌≡◌, take};
ghost use Rattle.lookups.specs.Lookup.{first_of};

use rules::Entry;

// The number of the first of the first n entries that is of this symbol with this graph, if there is one.
pub fn lookup(entries: &[Entry], n: usize, symbol: u16, graph: u64) -> Option<usize>
    ensures { result ≡ first_of symbol graph (take n entries.now) }
{
    entries
        .iter()
        .take(n)
        .position(|e| e.symbol == symbol && e.graph == graph)
}
