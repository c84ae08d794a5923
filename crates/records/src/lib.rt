// The test over a lent row of entries.
#![tactic(auto)]

ghost use Rattle.std.specs.Prelude.{◌≡◌, ◌≤◌, length};
ghost use Rattle.numbers.specs.Lists.{written};
ghost use Rattle.steps.specs.Lent.{held, read};
ghost use Rattle.passes.specs.Slices.{room_of, entries_to};
ghost use Rattle.records.specs.Records.{row_room, RowTested};

use grammar::SLOTS;
use rules::{Entry, MOST_ENTRIES, Report};
use steps::{Entries, Store};

const KIDS: usize = SLOTS * MOST_ENTRIES;

// Stores the first n entries in the first n places of the row.
fn store(row: &mut [Entry], entries: Entries<'_>, n: usize)
    requires { (n ≤ length row.old) × (n ≤ room_of (read entries)) }
    ensures { row.new ≡ written (entries_to (read entries.entry) n) row.old }
{
    // By number, by which the entry is read.
    for i in 0..n {
        rows::put_entry(row, i, entries.entry(i));
    }
}

// The test over a row, by way of slices with the same room.
fn run(table: &[u8], limit: u32, row: &mut [Entry], part: &mut Store<'_>) -> Report
    requires { room_of (held part.old) ≡ row_room row.old }
    ensures { RowTested table.now limit row.old result row.new }
{
    let report = passes::test(table, limit, part);
    store(row, part.entries(), usize::from(report.entries));
    report
}

// The circularity test of a table with at most `limit` closures. The stored entries are left at the front of the row, whose other records
// are as before; records beyond 4,096 are never used.
pub fn test(table: &[u8], limit: u32, entries: &mut [Entry]) -> Report
    ensures { RowTested table.now limit entries.old result entries.new }
{
    // Four arrays, since the test is over four slices, as C lends them, and there is no heap.
    let mut symbols = [0u16; MOST_ENTRIES];
    let mut graphs = [0u64; MOST_ENTRIES];
    let mut productions = [0u16; MOST_ENTRIES];
    let mut kids = [0u16; KIDS];
    let room = entries.len().min(MOST_ENTRIES);
    let slots = SLOTS * room;
    let mut part = Store {
        symbols: &mut symbols[..room],
        graphs: &mut graphs[..room],
        productions: &mut productions[..room],
        kids: &mut kids[..slots],
    };
    run(table, limit, entries, &mut part)
}
