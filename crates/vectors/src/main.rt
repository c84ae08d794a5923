// Runs a corpus of tables, each with limits and rooms of its own, and prints of each run what `circ` would. Each run is made over a row of
// records too, and a line says where that gives anything else.
//
// A case of standard input is the length of a table (4 bytes), the table, the number of runs (1 byte), and for each run its limit
// (4 bytes), its room (2 bytes) and whether entry lines are printed (1 byte).
#![tactic(auto)]

ghost use Rattle.std.specs.Prelude.{◌≡◌, length};

use grammar::SLOTS;
use lines::LINE_BYTES;
use print::OTHER_LINES;
use rules::{Answer, MOST_ENTRIES, Report};
use std::io;
use std::io::{ErrorKind, Read, Write};
use steps::{Entries, Store};

// Any table, good or bad, that a case has.
const TABLE_BYTES: usize = 65535;

const KIDS: usize = SLOTS * MOST_ENTRIES;

// For the line of each entry, and for the others.
const TEXT_BYTES: usize = LINE_BYTES * (MOST_ENTRIES + OTHER_LINES);

const SHORT_BYTES: usize = LINE_BYTES * OTHER_LINES;

// A function by itself: where an array of so many bytes is made, the checker writes out what it holds, and runs out of stack.
fn text_buffer() -> [u8; TEXT_BYTES]
    ensures { 525184 ≡ length result }
{
    [0; TEXT_BYTES]
}

// The count is that of a text in the buffer, so it is always there.
fn print_first<W: Write>(output: &mut W, text: &[u8], count: usize) {
    if let Some(first) = text.get(..count) {
        let _ = output.write_all(first);
    }
}

// The root's line, and its circle's.
fn root_lines(text: &mut [u8], at: usize, table: &[u8], report: Report) -> usize {
    let Answer::Circular(p) = report.answer else {
        return at;
    };
    let production = tables::production_of(table, usize::from(p));
    let end = lines::put_root(text, at, p, report.root, usize::from(production.n));
    print::put_circle(text, end, report.circle)
}

// The first line, and those that follow the entries.
fn print_short<W: Write>(output: &mut W, table: &[u8], report: Report) {
    let mut text = [0; SHORT_BYTES];
    let at = lines::put_first(&mut text, 0, report);
    let end = root_lines(&mut text, at, table, report);
    print_first(output, &text, end);
}

fn print_whole<W: Write>(output: &mut W, table: &[u8], report: Report, entries: Entries<'_>) {
    let mut text = text_buffer();
    let count = print::report_text(&mut text, table, report, entries);
    print_first(output, &text, count);
}

fn one_run<R: Read, W: Write>(input: &mut R, output: &mut W, table: &[u8]) -> io::Result<()> {
    let mut asked = [0; 7];
    input.read_exact(&mut asked)?;
    let limit = numbers::four_at(&asked, 0);
    let room = usize::from(numbers::two_at(&asked, 4)).min(MOST_ENTRIES);
    let mut symbols = [0; MOST_ENTRIES];
    let mut graphs = [0; MOST_ENTRIES];
    let mut productions = [0; MOST_ENTRIES];
    let mut kids = [0; KIDS];
    let mut store = Store {
        symbols: &mut symbols[..room],
        graphs: &mut graphs[..room],
        productions: &mut productions[..room],
        kids: &mut kids[..SLOTS * room],
    };
    let report = passes::test(table, limit, &mut store);
    let entries = Entries {
        symbols: &symbols,
        graphs: &graphs,
        productions: &productions,
        kids: &kids,
    };
    if !agreement::agrees(table, limit, room, report, entries) {
        let _ = output.write_all(b"the row of records differs\n");
    }
    if asked[6] == 1 {
        print_whole(output, table, report, entries);
    } else {
        print_short(output, table, report);
    }
    Ok(())
}

fn runs<R: Read, W: Write>(input: &mut R, output: &mut W, table: &[u8]) -> io::Result<()> {
    let mut count = [0; 1];
    input.read_exact(&mut count)?;
    for _ in 0..count[0] {
        one_run(input, output, table)?;
    }
    Ok(())
}

fn one_case<R: Read, W: Write>(input: &mut R, output: &mut W) -> io::Result<()> {
    let mut length = [0; 4];
    input.read_exact(&mut length)?;
    let n = numbers::four_at(&length, 0) as usize;
    let mut table = [0; TABLE_BYTES];
    if table.len() < n {
        return Err(io::Error::from(ErrorKind::InvalidData));
    }
    input.read_exact(&mut table[..n])?;
    runs(input, output, &table[..n])
}

// The corpus ends with the input.
fn main(rt: HostRuntime) {
    let mut input = rt.stdin();
    let mut output = rt.stdout();
    for _ in 0..100000 {
        if one_case(&mut input, &mut output).is_err() {
            return;
        }
    }
}
