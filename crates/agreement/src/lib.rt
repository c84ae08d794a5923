// Whether the test over a row of records gives what the test over parallel slices gave.
#![tactic(auto)]

ghost use Rattle.std.specs.Prelude.{true, ◌↔◌, ◌≡◌, min};
ghost use Rattle.rules.specs.Test as stated;
ghost use Rattle.steps.specs.Lent.{read};
ghost use Rattle.passes.specs.Slices.{Tells};
ghost use Rattle.agreement.specs.Agreement.{blank_entry, StoredAt, AlikeAt, Alike};

use grammar::SLOTS;
use rules::{Entry, MOST_ENTRIES, Report};
use steps::Entries;

// What stands in every record before the test.
fn blank() -> Entry
    ensures { result ≡ blank_entry }
{
    Entry {
        symbol: 65535,
        graph: 0,
        production: 65535,
        kids: [65535; SLOTS],
    }
}

// Whether e is the entry that is stored at a place, and its symbol and graph are found first at this place and not before it. The two
// finds are taken as they are given, so that each has to be tested: of a row in which both are looked up the one says what the other does.
fn is_stored(
    e: Entry,
    first: Option<usize>,
    before: Option<usize>,
    at: usize,
    entries: Entries<'_>,
) -> bool
    ensures { (result ≡ true) ↔ StoredAt (read entries.entry) at first before e }
{
    at < entries.room() && first == Some(at) && before.is_none() && e == entries.entry(at)
}

// Whether the record at a place is what it should be: the entry that is stored there, or after the stored ones a blank record.
fn as_told(row: &[Entry], at: usize, stored: u16, entries: Entries<'_>) -> bool
    ensures { (result ≡ true) ↔ AlikeAt (read entries.entry) stored row.now at }
{
    let e = rows::entry_at(row, at);
    if usize::from(stored) <= at {
        return e == blank();
    }
    let first = lookups::lookup(row, row.len(), e.symbol, e.graph);
    let before = lookups::lookup(row, at, e.symbol, e.graph);
    is_stored(e, first, before, at, entries)
}

// Whether each record of the row is what it should be.
fn alike(row: &[Entry], stored: u16, entries: Entries<'_>) -> bool
    ensures { (result ≡ true) ↔ Alike (read entries.entry) stored row.now }
{
    // By a loop: with `all` over the places the proof was not found.
    for at in 0..row.len() {
        if !as_told(row, at, stored, entries) {
            return false;
        }
    }
    true
}

// Whether the test over a row of records, with room for so many and for 4,096 at most, gives this report and leaves the entries that stand
// at the front of these slices, in which each is found at its own number; and whether the rest of its row is as before.
pub fn agrees(table: &[u8], limit: u32, room: usize, report: Report, entries: Entries<'_>) -> bool
    ensures { (result ≡ true) ↔ Tells (stated.test table.now limit (min 4096 room))
        (read entries.entry) report (read entries.entry) }
{
    let most = MOST_ENTRIES.min(room);
    let e = blank();
    let mut row = [e; MOST_ENTRIES];
    let given = records::test(table, limit, &mut row[..most]);
    given == report && alike(&row, given.entries, entries)
}
