// The library for C, and for Rust by way of C: each function of `kusillaqe` under its name there, with the same contract. A slice crosses
// as its address and its length, an array as its address. A crate is a library or a static library and not both, so each stands twice.
#![tactic(auto)]

ghost use Rattle.std.specs.Prelude.{◌≡◌, ◌*◌, take, replicate};
ghost use Rattle.grammar.specs.Table.{attributes, edges_in};
ghost use Rattle.grammar.specs.Refusal.{refusal};
ghost use Rattle.graph.specs.Rows.{own, placed, has_circle, root_graph};
ghost use Rattle.graph.specs.Parts.{closed_first};
ghost use Rattle.graph.specs.Search.{path_of, circle_of};
ghost use Rattle.graph.specs.Trails.{trail_of, circle_trail};
ghost use Rattle.passes.specs.Slices.{slices};
ghost use Rattle.flats.specs.Flat.{flat_check, flat_trail};
ghost use Rattle.kusillaqe.specs.Flat.{TestedFlat};

use flats::{REPORT, TRAIL};
use grammar::OCCURRENCES;

// The check of a table: the number of the rule that it breaks, 0 where it breaks none, and the first bad record.
#[unsafe(no_mangle)]
pub extern "C" fn kusillaqe_check(table: &[u8], broken: &mut [u32; 2])
    ensures { broken.new ≡ flat_check (refusal table.now) }
{
    kusillaqe::kusillaqe_check(table, broken);
}

// The circularity test over four lent slices; the report is left in numbers, its circle after the first twelve.
#[unsafe(no_mangle)]
pub extern "C" fn kusillaqe_test(
    table: &[u8],
    limit: u32,
    symbols: &mut [u16],
    graphs: &mut [u64],
    productions: &mut [u16],
    kids: &mut [u16],
    report: &mut [u32; REPORT],
)
    ensures { TestedFlat table.now limit
        (slices symbols.old graphs.old productions.old kids.old)
        report.new
        (slices symbols.new graphs.new productions.new kids.new) }
{
    kusillaqe::kusillaqe_test(table, limit, symbols, graphs, productions, kids, report);
}

// The rows of a run of edge records.
#[unsafe(no_mangle)]
pub extern "C" fn kusillaqe_own_rows(run: &[u8], rows: &mut [u64; 64])
    ensures { rows.new ≡ own attributes (edges_in run.now) (replicate 64 0) }
{
    kusillaqe::kusillaqe_own_rows(run, rows);
}

// A subtree's pairs, placed at its occurrence.
#[unsafe(no_mangle)]
pub extern "C" fn kusillaqe_place(rows: &mut [u64; 64], graph: u64, occurrence: usize)
    ensures { rows.new ≡ placed attributes occurrence graph rows.old }
{
    kusillaqe::kusillaqe_place(rows, graph, occurrence);
}

// The closure of the nodes of the first occurrences.
#[unsafe(no_mangle)]
pub extern "C" fn kusillaqe_close(rows: &mut [u64; 64], occurrences: usize)
    ensures { rows.new ≡ closed_first (attributes * occurrences) rows.old }
{
    kusillaqe::kusillaqe_close(rows, occurrences);
}

// Whether a node of the first occurrences leads to itself.
#[unsafe(no_mangle)]
pub extern "C" fn kusillaqe_has_circle(rows: &[u64; 64], occurrences: usize) -> bool
    ensures { result ≡ has_circle (take (attributes * occurrences) rows.now) }
{
    kusillaqe::kusillaqe_has_circle(rows, occurrences)
}

// The shortest circle among the nodes of the first occurrences, written from its smallest node, and of these the least. The masks of the
// occurrences say what marks its links have.
#[unsafe(no_mangle)]
pub extern "C" fn kusillaqe_circle(
    rows: &[u64; 64],
    occurrences: usize,
    masks: &[u16; OCCURRENCES],
    circle: &mut [u32; TRAIL],
)
    ensures { circle.new ≡ flat_trail
        (circle_trail attributes masks.now (circle_of (take (attributes * occurrences) rows.now))) }
{
    kusillaqe::kusillaqe_circle(rows, occurrences, masks, circle);
}

// The shortest path of one or more links from one of these nodes to another, and of these the least.
#[unsafe(no_mangle)]
pub extern "C" fn kusillaqe_path(
    rows: &[u64; 64],
    occurrences: usize,
    masks: &[u16; OCCURRENCES],
    from: usize,
    to: usize,
    path: &mut [u32; TRAIL],
)
    ensures { path.new ≡ flat_trail
        (trail_of attributes masks.now (path_of (take (attributes * occurrences) rows.now) from to) to) }
{
    kusillaqe::kusillaqe_path(rows, occurrences, masks, from, to, path);
}

// The pairs among the nodes of the left symbol.
#[unsafe(no_mangle)]
pub extern "C" fn kusillaqe_root_graph(rows: &[u64; 64]) -> u64
    ensures { result ≡ root_graph attributes rows.now }
{
    kusillaqe::kusillaqe_root_graph(rows)
}
