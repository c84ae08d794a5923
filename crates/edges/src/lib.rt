// An edge of a table, held to its rules.
#![tactic(auto)]

ghost use Rattle.std.specs.Prelude.{◌≡◌, ◌+◌, ◌^◌, ◌<◌, leb, ltb};
ghost use Rattle.numbers.specs.Number.{bit};
ghost use Rattle.numbers.specs.Lists.{both};
ghost use Rattle.grammar.specs.Grammar.{symbol_at};
ghost use Rattle.grammar.specs.Table.{production_in, grammar_of};
ghost use Rattle.grammar.specs.Refusal.{allowed, in_order, edge_read};
ghost use Rattle.grammar.specs.Reading.{edge_at};

use grammar::{Edge, PRODUCTION_BYTES, Rule, SLOTS, Symbol};
use numbers::two_at;

// Of what the rules ask, the header and the offsets are read once, and of the production only the fields that are asked for.

// The number of the symbol at an occurrence of the production whose record begins at `at`, and which has n right symbols; 0 where there is
// none.
fn symbol_at(table: &[u8], at: usize, n: u16, occurrence: u8) -> usize
    requires { (at + 18 < 2 ^ 64) × (n ≡ (production_in table.now at).n) }
    ensures { result ≡ symbol_at (production_in table.now at) occurrence }
{
    if occurrence == 0 {
        return usize::from(two_at(table, at));
    }
    let k = usize::from(occurrence - 1);
    if k < usize::from(n).min(SLOTS) {
        usize::from(two_at(table, at + 4 + 2 * k))
    } else {
        0
    }
}

// Rule 11: both occurrences are in range, where the production has n right symbols.
#[tactic(auto, unfolding(numbers::specs::Lists::both))]
fn occurrences_ok(n: u16, e: Edge) -> bool
    ensures { result ≡ both (leb e.source.occurrence n) (leb e.target.occurrence n) }
{
    u16::from(e.source.occurrence) <= n && u16::from(e.target.occurrence) <= n
}

// Rule 12: both attributes are in range, of the symbols at the source and at the target.
#[tactic(auto, unfolding(numbers::specs::Lists::both))]
fn attributes_ok(e: Edge, source: Symbol, target: Symbol) -> bool
    ensures { result ≡ both (ltb e.source.attribute source.count) (ltb e.target.attribute target.count) }
{
    e.source.attribute < source.count && e.target.attribute < target.count
}

// 1 where the attribute is inherited, and 0 where it is not.
fn inherited(s: Symbol, attribute: u8) -> u16
    ensures { result ≡ bit attribute s.mask }
{
    if 15 < attribute {
        return 0;
    }
    (s.mask >> attribute) % 2
}

// Rule 13: the target is allowed, of the symbol there.
fn target_ok(e: Edge, target: Symbol) -> bool
    ensures { result ≡ allowed e.target.occurrence (bit e.target.attribute target.mask) }
{
    let i = inherited(target, e.target.attribute);
    if e.target.occurrence == 0 {
        i == 0
    } else {
        i == 1
    }
}

// Rule 7: the edge i is above the edge before it, by production, then by the other four fields in their order.
#[tactic(auto, using(crate::proofs::Ordered::first_placed, crate::proofs::Ordered::later_placed))]
fn in_order(i: usize, before: Edge, e: Edge) -> bool
    ensures { result ≡ in_order i before e }
{
    i == 0 || before < e
}

// The edge i, after the edge before it, by rules 10 to 13 in this order, then 7.
pub fn read_edge(table: &[u8], i: usize, before: Edge) -> Result<Edge, Rule>
    ensures { result ≡ edge_read (grammar_of table.now) i before (edge_at table.now i) }
{
    let e = tables::edge_at(table, i);
    if tables::header_of(table).productions <= e.production {
        return Err(Rule::NoSuchProduction);
    }
    let at = tables::offsets_of(table).productions as usize
        + PRODUCTION_BYTES * usize::from(e.production);
    let n = two_at(table, at + 2);
    if !occurrences_ok(n, e) {
        return Err(Rule::NoOccurrence);
    }
    let s = symbol_at(table, at, n, e.source.occurrence);
    let t = symbol_at(table, at, n, e.target.occurrence);
    let source = tables::symbol_of(table, s);
    let target = tables::symbol_of(table, t);
    if !attributes_ok(e, source, target) {
        return Err(Rule::NoAttribute);
    }
    if !target_ok(e, target) {
        return Err(Rule::NotAllowed);
    }
    if !in_order(i, before, e) {
        return Err(Rule::NotAbove);
    }
    Ok(e)
}
