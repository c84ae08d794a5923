// The circle of a root: its compound graph is made once more, since by the end of a test its rows are closed.
#![tactic(auto)]

ghost use Rattle.std.specs.Prelude.{◌≡◌, min, ◌≤◌};
ghost use Rattle.grammar.specs.Grammar.{symbol, symbol_at};
ghost use Rattle.grammar.specs.Table.{grammar_of};
ghost use Rattle.circles.specs.Ring.{masks_in, ring_in};

use grammar::{NODES, OCCURRENCES, Production, SLOTS};
use graph::Trail;

// The symbol at an occurrence, of at most seven right ones.
fn symbol_at(production: Production, occurrence: usize) -> u16
    requires { occurrence ≤ min production.n 7 }
    ensures { result ≡ symbol_at production occurrence }
{
    if occurrence == 0 {
        return production.left;
    }
    production.slots[occurrence - 1]
}

fn mask_at(table: &[u8], production: Production, occurrence: usize) -> u16
    requires { occurrence ≤ min production.n 7 }
    ensures { result ≡ (symbol (grammar_of table.now) (symbol_at production occurrence)).mask }
{
    let symbol = symbol_at(production, occurrence);
    tables::symbol_of(table, usize::from(symbol)).mask
}

// For each occurrence the mask of its symbol, and 0 in the places beyond.
fn masks_of(table: &[u8], production: Production) -> [u16; OCCURRENCES]
    ensures { result ≡ masks_in (grammar_of table.now) production }
{
    let rights = usize::from(production.n).min(SLOTS);
    let mut masks = [0u16; OCCURRENCES];
    // By number: what is written is the mask of an occurrence.
    for o in 0..rights + 1 {
        masks[o] = mask_at(table, production, o);
    }
    masks
}

// The circle of the compound graph of the production `number` over the entries in the root's slots, which have these graphs.
pub fn circle_of(table: &[u8], graphs: &[u64], number: usize, root: [u16; SLOTS]) -> Trail
    ensures { result ≡ ring_in table.now graphs.now number root }
{
    let production = tables::production_of(table, number);
    let rights = usize::from(production.n).min(SLOTS);
    let mut rows = [0u64; NODES];
    let run = tables::run_of(table, number);
    closures::compound(&mut rows, run, graphs, &root, rights);
    let masks = masks_of(table, production);
    search::circle(&rows, rights + 1, &masks)
}
