// Compound graphs as rows of bits: a row for each attribute of the eight occurrences that a production has at most, and in it a bit for each.
#![tactic(auto)]

ghost use Rattle.std.specs.Prelude.{◌≡◌, ◌+◌, ◌<◌, length, get_or, replicate};
ghost use Rattle.grammar.specs.Table.{attributes, node_in, edges_in};
ghost use Rattle.graph.specs.Rows.{node, link, own, placed, placed_from};
ghost use Rattle.graph.specs.Parts.{most_nodes};
ghost use Rattle.compounds.specs.Combination.{picked_graphs};

use grammar::{ATTRIBUTES, EDGE_BYTES, NODES, SLOTS};

// As many low bits of a row as an occurrence has attributes.
pub const ATTRIBUTE_BITS: u64 = (1 << ATTRIBUTES) - 1;

// The number of the node whose occurrence and attribute stand at `at`.
fn node_at(edge: &[u8; EDGE_BYTES], at: usize) -> usize
    requires { at < 5 }
    ensures { result ≡ node attributes (node_in edge.now at) }
{
    ATTRIBUTES * usize::from(edge[at]) + usize::from(edge[at + 1])
}

// One edge more; nothing changes where there is no such node.
fn add_edge(rows: &mut [u64; NODES], source: usize, target: usize)
    ensures { rows.new ≡ link source target rows.old }
{
    if source < NODES && target < NODES {
        rows[source] |= 1 << target;
    }
}

// The edges of a run of edge records.
fn add_edges(rows: &mut [u64; NODES], run: &[u8])
    ensures { rows.new ≡ own attributes (edges_in run.now) rows.old }
{
    let (edges, _) = run.as_chunks::<EDGE_BYTES>();
    for edge in edges {
        let source = node_at(edge, 2);
        let target = node_at(edge, 4);
        add_edge(rows, source, target);
    }
}

// A table with these edges alone.
pub fn own_rows(run: &[u8]) -> [u64; NODES]
    ensures { result ≡ own attributes (edges_in run.now) (replicate most_nodes 0) }
{
    let mut rows = [0u64; NODES];
    add_edges(&mut rows, run);
    rows
}

// A subtree's pairs, joined in at its occurrence.
pub fn place(rows: &mut [u64; NODES], graph: u64, occurrence: usize)
    ensures { rows.new ≡ placed attributes occurrence graph rows.old }
{
    if SLOTS < occurrence {
        return;
    }
    let base = ATTRIBUTES * occurrence;
    for a in 0..ATTRIBUTES {
        let pairs = (graph >> (ATTRIBUTES * a)) & ATTRIBUTE_BITS;
        rows[base + a] |= pairs << base;
    }
}

// The graph of a stored entry's number, and none where there is no such entry.
fn graph_of(graphs: &[u64], number: u16) -> u64
    ensures { result ≡ get_or graphs.now number 0 }
{
    graphs.get(usize::from(number)).copied().unwrap_or(0)
}

// The pairs of the first `count` of the picked entries, each at its occurrence. Occurrence 0 is the left symbol.
fn place_all(rows: &mut [u64; NODES], graphs: &[u64], picked: &[u16], count: usize)
    ensures { rows.new
        ≡ placed_from attributes 1 (picked_graphs graphs.now count picked.now) rows.old }
{
    let some = &picked[..numbers::smaller(count, picked.len())];
    for (k, &number) in some.iter().enumerate() {
        let pairs = graph_of(graphs, number);
        place(rows, pairs, k + 1);
    }
}

// The compound graph of a combination: a production's edges, and the pairs of the picked entries.
pub fn compound(
    rows: &mut [u64; NODES],
    run: &[u8],
    graphs: &[u64],
    picked: &[u16; SLOTS],
    count: usize,
)
    ensures { rows.new
        ≡ placed_from attributes 1 (picked_graphs graphs.now count picked.now)
        (own attributes (edges_in run.now) rows.old) }
{
    add_edges(rows, run);
    place_all(rows, graphs, picked, count);
}
