// The check of a table.
#![tactic(auto)]

ghost use Rattle.std.specs.Prelude.{◌≡◌, ℕ, ◌<◌, Result, MatchResult};
ghost use Rattle.grammar.specs.declared.Rule.{Rule};
ghost use Rattle.grammar.specs.Refusal.{number, first_bad, refusal};
ghost use Rattle.grammar.specs.Steps.{symbols_check, productions_check, edges_check};

use grammar::{Broken, Edge, HEADER_BYTES, Node, Rule};

// The refusal of the record i, handed up.
fn handed_up<T: Copy>(read: Result<T, Rule>, i: u16) -> Result<T, Broken>
    ensures { MatchResult read (λ x. result ≡ Ok x) (λ k. result ≡ Err (Broken.Record (number k) i)) }
{
    read.map_err(|rule| Broken::Record(reads::number(rule), i))
}

// Of the first `count` records of a kind the first that is refused, by its number.
fn check_records<T: Copy, F: Fn(usize) -> Result<T, Rule>>(
    count: u16,
    read: F,
) -> Result<(), Broken>
    requires { F.IsAlwaysCallable read }
    ensures { (said : ℕ → Result T Rule) → ((i : ℕ) → i < count → (r : _) → F.post read i r → r ≡ said i) → result ≡ first_bad said 0 count }
{
    for i in 0..count {
        handed_up(read(usize::from(i)), i)?;
    }
    Ok(())
}

fn check_symbols(table: &[u8]) -> Result<(), Broken>
    ensures { result ≡ symbols_check table.now }
{
    check_records(
        tables::header_of(table).symbols,
        |s| reads::read_symbol(table, s),
    )
}

fn check_productions(table: &[u8]) -> Result<(), Broken>
    ensures { result ≡ productions_check table.now }
{
    check_records(
        tables::header_of(table).productions,
        |p| reads::read_production(table, p),
    )
}

// The first edge has none before it, and one of zeros stands in for it.
fn check_edges(table: &[u8]) -> Result<(), Broken>
    ensures { result ≡ edges_check table.now }
{
    let none = Node {
        occurrence: 0,
        attribute: 0,
    };
    let mut before = Edge {
        production: 0,
        source: none,
        target: none,
    };
    for i in 0..tables::header_of(table).edges {
        before = handed_up(edges::read_edge(table, usize::from(i), before), i)?;
    }
    Ok(())
}

// Checks 1 to 5, each over its whole table, then the edges by number.
#[tactic(auto, unfolding(grammar::specs::Refusal::refusal, grammar::specs::Refusal::and_check))]
pub fn check(table: &[u8]) -> Result<(), Broken>
    ensures { result ≡ refusal table.now }
{
    if table.len() < HEADER_BYTES {
        return Err(Broken::Rule(reads::number(Rule::HeaderShort)));
    }
    if !reads::counts_ok(table) {
        return Err(Broken::Rule(reads::number(Rule::Counts)));
    }
    if !reads::offsets_ok(table) {
        return Err(Broken::Rule(reads::number(Rule::Offsets)));
    }
    check_symbols(table)?;
    check_productions(table)?;
    check_edges(table)
}
