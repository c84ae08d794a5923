// What stands at a place of a lent row of entries.
#![tactic(auto)]

ghost use Rattle.std.specs.Prelude.{◌≡◌, set};
ghost use Rattle.rules.specs.Passes.{entry, no_entry};

use grammar::SLOTS;
use rules::Entry;

// The entry of zeros; `steps`, which knows no row, writes it out once more.
fn no_entry() -> Entry
    ensures { result ≡ no_entry }
{
    Entry {
        symbol: 0,
        graph: 0,
        production: 0,
        kids: [0; SLOTS],
    }
}

// The entry at a place of the row; past its end the entry of zeros.
pub fn entry_at(entries: &[Entry], at: usize) -> Entry
    ensures { result ≡ entry entries.now at }
{
    entries.get(at).copied().unwrap_or(no_entry())
}

// Stores an entry at a place of the row; past its end nothing changes.
pub fn put_entry(entries: &mut [Entry], to: usize, e: Entry)
    ensures { entries.new ≡ set entries.old to e }
{
    // By index: after a write through `get_mut` no more of the row would be known than its length.
    if to < entries.len() {
        entries[to] = e;
    }
}
