// Reads a grammar table from standard input and prints the report of its circularity test.
#![tactic(auto)]

ghost use Rattle.std.specs.Prelude.{◌≡◌, ◌≤◌, length, MatchResult};
ghost use Rattle.std.specs.Io.KnownBytes.{Appends};
ghost use Rattle.print.specs.Texts.{bytes_for};
ghost use Rattle.circ.specs.Whole.{room, circ_text, Reported, NoMoreThan, Taken, Answered};

use grammar::{
    EDGE_BYTES, HEADER_BYTES, MOST_EDGES, MOST_PRODUCTIONS, MOST_SYMBOLS, PRODUCTION_BYTES, SLOTS,
    SYMBOL_BYTES,
};
use lines::LINE_BYTES;
use print::OTHER_LINES;
use std::fmt;
use std::io::{Read, Write};
use steps::Store;

// The most closures, and the room for entries.
const LIMIT: u32 = 1_000_000;

const ROOM: usize = 1024;

const KIDS: usize = SLOTS * ROOM;

// One byte more than the longest table has: what stands behind that changes no answer.
const TABLE_BYTES: usize = HEADER_BYTES
    + SYMBOL_BYTES * (MOST_SYMBOLS as usize)
    + PRODUCTION_BYTES * (MOST_PRODUCTIONS as usize)
    + EDGE_BYTES * (MOST_EDGES as usize)
    + 1;

// For the line of each entry, and for the others.
const TEXT_BYTES: usize = LINE_BYTES * (ROOM + OTHER_LINES);

// Why a run stops short.
#[derive(Clone, Copy)]
enum Failure {
    Unread,
    Unwritten,
}

impl fmt::Display for Failure {
    fn fmt<W: fmt::Write>(&self, f: &mut fmt::Formatter<W>) -> fmt::Result {
        match self {
            Failure::Unread => write!(f, "the table could not be read"),
            Failure::Unwritten => write!(f, "the report could not be written"),
        }
    }
}

// Reads until the buffer is full or the input ends, and says how many bytes stand at the front of the buffer then. An interrupted read
// counts as one that failed: no signal is caught here.
fn read_input<R: Read>(input: &mut R, buf: &mut [u8]) -> Result<usize, Failure>
    ensures most { NoMoreThan result buf.new }
    ensures bytes { Taken (R.remaining input.old) (R.remaining input.new) result buf.new }
{
    let mut at = 0;
    // The step is what a read gave; `read_exact` would refuse a short input.
    while at < buf.len() {
        let n = input.read(&mut buf[at..]).map_err(|_| Failure::Unread)?;
        if n == 0 {
            return Ok(at);
        }
        at += n;
    }
    Ok(at)
}

// The report of a table.
fn report(text: &mut [u8], table: &[u8]) -> usize
    requires { bytes_for room ≤ length text.old }
    ensures { Reported table.now text.old text.new result }
{
    let mut symbols = [0; ROOM];
    let mut graphs = [0; ROOM];
    let mut productions = [0; ROOM];
    let mut kids = [0; KIDS];
    let mut store = Store {
        symbols: &mut symbols,
        graphs: &mut graphs,
        productions: &mut productions,
        kids: &mut kids,
    };
    answers::test_text(text, table, LIMIT, &mut store)
}

fn print_report<W: Write>(output: &mut W, table: &[u8]) -> Result<(), Failure>
    ensures { MatchResult result
        (λ _. Appends (W.contents output.old) (W.contents output.new) (circ_text table.now))
        (λ e. e ≡ Failure.Unwritten) }
{
    let mut text = [0; TEXT_BYTES];
    let count = report(&mut text, table);
    output
        .write_all(&text[..count])
        .map_err(|_| Failure::Unwritten)
}

// Reads a table and prints the report of its test.
fn run<R: Read, W: Write>(input: &mut R, output: &mut W) -> Result<(), Failure>
    ensures { Answered (R.remaining input.old) (W.contents output.old) (W.contents output.new) result }
{
    let mut table = [0; TABLE_BYTES];
    let n = read_input(input, &mut table)?;
    print_report(output, &table[..n])
}

fn main(rt: HostRuntime) {
    if let Err(failure) = run(&mut rt.stdin(), &mut rt.stdout()) {
        let _ = eprintln!(rt; "circ: {failure}");
    }
}
