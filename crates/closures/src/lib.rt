// The closure of a compound graph, and what is read off it. Who closes a graph finds here too what makes its rows.
#![tactic(auto)]

ghost use Rattle.std.specs.Prelude.{◌≡◌, ◌*◌, ◌+◌, ◌<◌, min, map, length, take};
ghost use Rattle.grammar.specs.Table.{attributes};
ghost use Rattle.graph.specs.Rows.{through, has_circle, root_graph};
ghost use Rattle.graph.specs.Parts.{most_nodes, targets_to, closed_first};
ghost use Rattle.compounds.specs.Combination.{closed_in};

use compounds::ATTRIBUTE_BITS;
pub use compounds::{compound, own_rows, place};
use grammar::{ATTRIBUTES, NODES, OCCURRENCES, SLOTS};

// What one closure gives: both, whether there is a circle or not.
#[derive(Clone, Copy, PartialEq, Eq)]
pub struct Closed {
    pub circle: bool,
    pub graph: u64,
}

// A row after the step through node k, whose row is `via`.
fn joined(k: usize, via: u64, row: u64) -> u64
    requires { k < most_nodes }
    ensures { result ≡ through k via row }
{
    if (row >> k) & 1 == 1 { row | via } else { row }
}

// The step through node k, whose row is `via`, in all rows. By index, of which the wrong steps that must fail speak.
fn step_through(rows: &mut [u64], k: usize, via: u64)
    requires { k < most_nodes }
    ensures { rows.new ≡ map (through k via) rows.old }
{
    for i in 0..rows.len() {
        rows[i] = joined(k, via, rows[i]);
    }
}

// How many nodes the occurrences have, of those that a table has room for.
fn nodes(occurrences: usize) -> usize
    ensures { result ≡ min (attributes * occurrences) most_nodes }
{
    ATTRIBUTES * occurrences.min(OCCURRENCES)
}

// The nodes to which an edge of the rows leads, as the bits of one row.
fn targets(rows: &[u64]) -> u64
    ensures { result ≡ targets_to (length rows.now) rows.now }
{
    let mut all: u64 = 0;
    for &row in rows {
        all |= row;
    }
    all
}

// The closure of the nodes of the first occurrences. The step through a node that no edge leaves, or to which none leads, would change
// nothing and is left out.
pub fn close(rows: &mut [u64; NODES], occurrences: usize)
    ensures { rows.new ≡ closed_first (attributes * occurrences) rows.old }
{
    let m = nodes(occurrences);
    let all = targets(&rows[..m]);
    for k in 0..m {
        let via = rows[k];
        if via != 0 && (all >> k) & 1 == 1 {
            step_through(&mut rows[..m], k, via);
        }
    }
}

// Whether a node of the first occurrences has an edge to itself.
pub fn has_circle(rows: &[u64; NODES], occurrences: usize) -> bool
    ensures { result ≡ has_circle (take (attributes * occurrences) rows.now) }
{
    let n = nodes(occurrences);
    let mut seen: u64 = 0;
    for (i, &row) in rows[..n].iter().enumerate() {
        seen |= row >> i;
    }
    seen & 1 == 1
}

// The pairs among the nodes of the left symbol.
pub fn root_graph(rows: &[u64; NODES]) -> u64
    ensures { result ≡ root_graph attributes rows.now }
{
    let mut graph: u64 = 0;
    for (a, &row) in rows[..ATTRIBUTES].iter().enumerate() {
        graph |= (row & ATTRIBUTE_BITS) << (ATTRIBUTES * a);
    }
    graph
}

// How many occurrences a combination has: the left symbol's, and one for each of the first `count` picked entries.
fn occurrences_of(picked: &[u16], count: usize) -> usize
    ensures { result ≡ min count (length picked.now) + 1 }
{
    numbers::smaller(count, picked.len()) + 1
}

// One closure: a combination's compound graph in a table of its own, closed. Of more than seven picked entries the first seven count.
pub fn closure(run: &[u8], graphs: &[u64], picked: &[u16; SLOTS], count: usize) -> Closed
    ensures { (result.circle ≡ has_circle (closed_in run.now graphs.now count picked.now))
        × (result.graph ≡ root_graph attributes (closed_in run.now graphs.now count picked.now)) }
{
    let occurrences = occurrences_of(picked, count);
    let mut rows = [0u64; NODES];
    compound(&mut rows, run, graphs, picked, count);
    close(&mut rows, occurrences);
    Closed {
        circle: has_circle(&rows, occurrences),
        graph: root_graph(&rows),
    }
}
