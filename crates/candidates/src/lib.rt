// The candidates of a right symbol among the stored entries.
#![tactic(auto)]

ghost use Rattle.std.specs.Prelude.{◌≡◌};
ghost use Rattle.candidates.specs.Next.{next_of};

// The number of the next entry of the symbol at or after `from` and below `first`, if there is one.
pub fn next_candidate(symbols: &[u16], symbol: u16, from: usize, first: usize) -> Option<usize>
    ensures { result ≡ next_of symbols.now symbol from first }
{
    // By a loop: with `position` over a part of the slice the proof was not found.
    for e in from..first.min(symbols.len()) {
        if symbols[e] == symbol {
            return Some(e);
        }
    }
    None
}
