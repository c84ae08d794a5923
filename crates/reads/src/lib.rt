// The header, the symbols and the productions of a table, each held to its rule, and the number by which a rule is published.
#![tactic(auto)]

ghost use Rattle.std.specs.Prelude.{◌≡◌, ◌≤◌, ltb, take, drop};
ghost use Rattle.numbers.specs.Lists.{every};
ghost use Rattle.grammar.specs.Grammar.{symbol, production};
ghost use Rattle.grammar.specs.Table.{N, attributes, width_of, grammar_of};
ghost use Rattle.grammar.specs.Refusal.{number, counts_ok, offsets_ok, symbol_ok, production_ok, symbol_read, production_read};

use grammar::{
    ATTRIBUTES, MOST_EDGES, MOST_PRODUCTIONS, MOST_SYMBOLS, Production, Rule, SLOTS, Symbol,
};
use numbers::four_at;

// The published number of a rule.
pub fn number(rule: Rule) -> u8
    ensures { result ≡ number rule }
{
    rule as u8
}

// Rule 2: the counts and the start symbol.
#[tactic(auto, unfolding(grammar::specs::Refusal::counts_ok, numbers::specs::Lists::both))]
pub fn counts_ok(table: &[u8]) -> bool
    ensures { result ≡ counts_ok table.now }
{
    let h = tables::header_of(table);
    1 <= h.symbols
        && h.symbols <= MOST_SYMBOLS
        && h.productions <= MOST_PRODUCTIONS
        && h.edges <= MOST_EDGES
        && h.start < h.symbols
}

// Rule 3: the offsets and the total.
#[tactic(auto, unfolding(grammar::specs::Refusal::offsets_ok, numbers::specs::Lists::both))]
pub fn offsets_ok(table: &[u8]) -> bool
    ensures { result ≡ offsets_ok table.now }
{
    let o = tables::offsets_of(table);
    four_at(table, 8) == o.symbols
        && four_at(table, 12) == o.productions
        && four_at(table, 16) == o.edges
        && four_at(table, 20) == o.total
        && o.total as usize == table.len()
}

#[tactic(auto, unfolding(grammar::specs::Refusal::symbol_ok, numbers::specs::Lists::both))]
fn symbol_ok(s: Symbol) -> bool
    ensures { result ≡ symbol_ok attributes s }
{
    usize::from(s.count) <= ATTRIBUTES && s.mask < 1u16 << s.count
}

// The symbol s, by rule 4.
#[tactic(auto, unfolding(grammar::specs::Refusal::or_rule))]
pub fn read_symbol(table: &[u8], s: usize) -> Result<Symbol, Rule>
    ensures { result ≡ symbol_read (width_of table.now) (symbol (grammar_of table.now) s) }
{
    let x = tables::symbol_of(table, s);
    if symbol_ok(x) {
        Ok(x)
    } else {
        Err(Rule::SymbolBad)
    }
}

fn slots_below(slots: &[u16], bound: u16) -> bool
    ensures { result ≡ every (λ s. ltb s bound) slots.now }
{
    slots.iter().all(|s| *s < bound)
}

// The right symbols are there, and the slots after them are 0.
fn production_ok(p: Production, symbols: u16) -> bool
    ensures { result ≡ production_ok symbols p }
{
    let n = usize::from(p.n);
    if symbols <= p.left || SLOTS < n {
        return false;
    }
    slots_below(&p.slots[..n], symbols) && slots_below(&p.slots[n..], 1)
}

// The production p, by rule 5.
#[tactic(auto, unfolding(grammar::specs::Refusal::or_rule))]
pub fn read_production(table: &[u8], p: usize) -> Result<Production, Rule>
    ensures { result ≡ production_read (N table.now) (production (grammar_of table.now) p) }
{
    let h = tables::header_of(table);
    let x = tables::production_of(table, p);
    if production_ok(x, h.symbols) {
        Ok(x)
    } else {
        Err(Rule::ProductionBad)
    }
}
