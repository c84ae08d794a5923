// The shortest and least path from one node to another and the shortest and least circle, with the marks of their links, in a graph as rows of
// bits. Besides the rows only a few numbers are held.
#![tactic(auto)]

ghost use Rattle.std.specs.Prelude.{◌≡◌, ◌∷◌, suc, ◌*◌, ◌<◌, ◌≤◌, length, take, MatchOption};
ghost use Rattle.numbers.specs.Number.{bit};
ghost use Rattle.grammar.specs.Table.{attributes};
ghost use Rattle.graph.specs.Parts.{most_nodes};
ghost use Rattle.graph.specs.Search.{into, level, between, least_between, path_of, nearest_to, circle_of};
ghost use Rattle.graph.specs.Marks.{edge_into, mark_into};
ghost use Rattle.graph.specs.Trails.{trail_of, circle_trail, no_trail};

use grammar::{ATTRIBUTES, NODES, OCCURRENCES};
use graph::{Nearest, Trail};

// The rows of the nodes that count, and for each occurrence the mask of its symbol, which says what attributes are inherited and so what a
// link is.
#[derive(Clone, Copy)]
struct Graph<'a> {
    rows: &'a [u64],
    masks: &'a [u16; OCCURRENCES],
    ghost few: { length rows.now ≤ most_nodes },
}

impl<'a> Graph<'a> {
    // The nodes of the first occurrences.
    fn new(rows: &'a [u64; NODES], occurrences: usize, masks: &'a [u16; OCCURRENCES]) -> Graph<'a>
        ensures rows { result.rows.now ≡ take (attributes * occurrences) rows.now }
        ensures masks { result.masks.now ≡ masks.now }
    {
        let m = ATTRIBUTES * numbers::smaller(occurrences, OCCURRENCES);
        Graph {
            rows: &rows[..m],
            masks,
        }
    }

    // The nodes with a link into the set.
    fn sources(&self, set: u64) -> u64
        ensures { result ≡ into (length self.now.rows.now) self.now.rows.now set }
    {
        let mut found: u64 = 0;
        for (i, &row) in self.rows.iter().enumerate() {
            if row & set != 0 {
                found |= 1 << i;
            }
        }
        found
    }

    // The nodes from which exactly k links lead to y.
    fn reaching(&self, y: usize, k: usize) -> u64
        requires { y < length self.now.rows.now }
        ensures { result ≡ level self.now.rows.now y k }
    {
        let mut set: u64 = 1 << y;
        for d in 0..k {
            set = self.sources(set);
        }
        set
    }

    // How many nodes a shortest path from x to y has between them.
    fn between(&self, x: usize, y: usize) -> Option<usize>
        requires { (x < length self.now.rows.now) × (y < length self.now.rows.now) }
        ensures { MatchOption result (length self.now.rows.now ≤ between self.now.rows.now x y)
            (λ k. (k ≡ between self.now.rows.now x y) × (k < length self.now.rows.now)) }
    {
        let mut set: u64 = 1 << y;
        for k in 0..self.rows.len() {
            set = self.sources(set);
            if (set >> x) & 1 == 1 {
                return Some(k);
            }
        }
        None
    }

    // Whether a link to the node is an edge of the production.
    fn edge_into(&self, target: usize) -> bool
        requires { target < most_nodes }
        ensures { result ≡ edge_into attributes self.now.masks.now target }
    {
        let inherited = (self.masks[target / ATTRIBUTES] >> (target % ATTRIBUTES)) & 1;
        if target < ATTRIBUTES {
            inherited == 0
        } else {
            inherited == 1
        }
    }

    fn mark(&self, target: usize) -> u8
        requires { target < most_nodes }
        ensures { result ≡ mark_into attributes self.now.masks.now target }
    {
        u8::from(self.edge_into(target))
    }

    // The least path of k + 1 links from x to y, where there is one. From each node it goes to the smallest from which as many links as are
    // left lead to y. The sets of nodes are made anew from y for each step, so that none but the last is kept.
    fn written(&self, x: usize, y: usize, k: usize) -> Trail
        requires { (x < length self.now.rows.now) × (y < length self.now.rows.now) × (k < length self.now.rows.now)
            × (bit x (level self.now.rows.now y (suc k)) ≡ 1) }
        ensures { result ≡ trail_of attributes self.now.masks.now (x ∷ least_between self.now.rows.now y k x) y }
    {
        let mut trail = no_trail();
        trail.nodes[0] = x as u8;
        let mut z = x;
        for i in 0..k {
            let ahead = self.reaching(y, k - i);
            let next = (self.rows[z] & ahead).trailing_zeros() as usize;
            trail.nodes[i + 1] = next as u8;
            trail.marks[i] = self.mark(next);
            z = next;
        }
        trail.marks[k] = self.mark(y);
        trail.len = (k + 1) as u8;
        trail
    }

    // The smallest of the nodes with a shortest path back to themselves.
    fn nearest(&self) -> Option<Nearest>
        ensures { MatchOption result (length self.now.rows.now ≤ (nearest_to (length self.now.rows.now) self.now.rows.now).between)
            (λ b. (b ≡ nearest_to (length self.now.rows.now) self.now.rows.now) × (b.between < length self.now.rows.now)) }
    {
        let mut nearest: Option<Nearest> = None;
        for start in 0..self.rows.len() {
            let Some(between) = self.between(start, start) else {
                continue;
            };
            if nearest.is_none_or(|found| between < found.between) {
                nearest = Some(Nearest { start, between });
            }
        }
        nearest
    }
}

// Where there is none.
pub fn no_trail() -> Trail
    ensures { result ≡ no_trail }
{
    Trail {
        nodes: [0u8; NODES],
        marks: [0u8; NODES],
        len: 0,
    }
}

// The shortest path of one or more links from x to y among the nodes of the first occurrences, and of these the least, with the marks of its
// links. The mask of each occurrence says which attributes are inherited, and so what each link is.
pub fn path(
    rows: &[u64; NODES],
    occurrences: usize,
    masks: &[u16; OCCURRENCES],
    x: usize,
    y: usize,
) -> Trail
    ensures { result
        ≡ trail_of attributes masks.now (path_of (take (attributes * occurrences) rows.now) x y) y }
{
    let graph = Graph::new(rows, occurrences, masks);
    let m = graph.rows.len();
    if m <= x || m <= y {
        return no_trail();
    }
    let Some(k) = graph.between(x, y) else {
        return no_trail();
    };
    graph.written(x, y, k)
}

// The shortest circle among the nodes of the first occurrences, written from its smallest node, and of these the least, as a path is.
// Made where its caller keeps it: called, it would take 122 bytes more of the stack.
#[inline(always)]
pub fn circle(rows: &[u64; NODES], occurrences: usize, masks: &[u16; OCCURRENCES]) -> Trail
    ensures { result
        ≡ circle_trail attributes masks.now (circle_of (take (attributes * occurrences) rows.now)) }
{
    let graph = Graph::new(rows, occurrences, masks);
    let Some(nearest) = graph.nearest() else {
        return no_trail();
    };
    graph.written(nearest.start, nearest.start, nearest.between)
}
