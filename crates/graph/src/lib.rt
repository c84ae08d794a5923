// No function: graphs as rows of bits stand in specs/, and their theory in proofs/. What is found in one is handed over in these.
#![tactic(auto)]

use grammar::NODES;

// A path or a circle: its nodes, beside each 1 where the link that leaves it is an edge of the production and 0 where it is a subtree's pair,
// and how many they are. The places beyond are 0. In fixed places and by numbers, as C is given them: there is no heap.
#[derive(Clone, Copy, PartialEq, Eq)]
pub struct Trail {
    pub nodes: [u8; NODES],
    pub marks: [u8; NODES],
    pub len: u8,
}

// A node, and how many nodes a shortest path from it back to it has between.
#[derive(Clone, Copy, PartialEq, Eq)]
pub struct Nearest {
    pub start: usize,
    pub between: usize,
}
