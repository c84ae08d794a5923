// The lines that `circ` prints, each put whole into a buffer that the caller lends, or not at all; that of the circle, which may be longer
// than the others, piece by piece.
#![tactic(auto)]

ghost use Rattle.std.specs.Prelude.{◌≡◌, [], ◌++◌, ◌+◌, ◌≤◌, length, take};
ghost use Rattle.texts.specs.Lines.{decimal, counts, first_line, kids_text, entry_line, root_line, link_text, ascii, newline, spaced, broken_numbers};
ghost use Rattle.lines.specs.Buffer.{making_bytes, Written};

use grammar::{Broken, SLOTS};
use rules::{Answer, Report};
use std::marker::Model;

// No line but the circle's has more.
pub const LINE_BYTES: usize = 128;

// Room for the longest line, were each number of twenty digits: none has to be known shorter.
const MAKING_BYTES: usize = 320;

// A line in the making: its text is the first `len` bytes. Each is made here, whole, before it is put.
#[derive(Drop)]
struct Line {
    bytes: [u8; MAKING_BYTES],
    len: usize,
}

impl Model for Line {
    ghost use Rattle.std.specs.Prelude.{List, ℕ, take, ◌≤◌};
    ghost use Rattle.lines.specs.Buffer.{making_bytes};

    ghost Value = { List ℕ };

    ghost view = { λ l. take l.len l.bytes };

    ghost invariant = { λ l. l.len ≤ making_bytes };
}

impl Line {
    fn new() -> Self
        ensures { result ≡ [] }
    {
        Line {
            bytes: [0; MAKING_BYTES],
            len: 0,
        }
    }

    fn word(&mut self, word: &[u8])
        requires { length self.old + length word.now ≤ making_bytes }
        ensures { self.new ≡ self.old ++ word.now }
    {
        let end = self.len + word.len();
        self.bytes[self.len..end].copy_from_slice(word);
        self.len = end;
    }

    // By hand, since `write!` may fail for all that it promises, with room or without.
    fn number(&mut self, tag: &[u8], n: u64)
        requires { length self.old + (length tag.now + 20) ≤ making_bytes }
        ensures text { self.new ≡ self.old ++ (tag.now ++ decimal n) }
        ensures most { length self.new ≤ length self.old + (length tag.now + 20) }
    {
        let mut digits = [0; 20];
        let count = io::decimal(n, &mut digits);
        self.word(tag);
        self.word(&digits[..count]);
    }

    // All of the slots are kids where `n` is more than seven.
    #[tactic(auto, unfolding(texts::specs::Lines::spaced))]
    fn kids(&mut self, kids: [u16; SLOTS], n: usize)
        requires { length self.old + 152 ≤ making_bytes }
        ensures text { self.new ≡ self.old ++ kids_text (take n kids) }
        ensures most { length self.new ≤ length self.old + 152 }
    {
        self.word(b" kids");
        for kid in &kids[..n.min(SLOTS)] {
            self.number(b" ", u64::from(*kid));
        }
    }

    fn put(&self, buf: &mut [u8], at: usize) -> usize
        ensures { Written self.now at buf.old buf.new result }
    {
        put_word(buf, at, &self.bytes[..self.len])
    }
}

// The first line; of a refused table it is the only one.
pub fn put_first(buf: &mut [u8], at: usize, report: Report) -> usize
    ensures { Written (first_line report) at buf.old buf.new result }
{
    first_line(report).put(buf, at)
}

// Of the seven slots the first `n` are kids, all of them where `n` is more than seven.
#[tactic(auto, unfolding(texts::specs::Lines::entry_line))]
pub fn put_entry(
    buf: &mut [u8],
    at: usize,
    number: u16,
    symbol: u16,
    production: u16,
    kids: [u16; SLOTS],
    n: usize,
    graph: u64,
) -> usize
    ensures { Written (entry_line number symbol production (take n kids) graph) at buf.old buf.new result }
{
    let mut line = Line::new();
    line.number(b"entry ", u64::from(number));
    line.number(b" symbol ", u64::from(symbol));
    line.number(b" production ", u64::from(production));
    line.kids(kids, n);
    line.number(b" graph ", graph);
    line.word(b"\n");
    line.put(buf, at)
}

#[tactic(auto, unfolding(texts::specs::Lines::root_line))]
pub fn put_root(buf: &mut [u8], at: usize, production: u16, root: [u16; SLOTS], n: usize) -> usize
    ensures { Written (root_line production (take n root)) at buf.old buf.new result }
{
    let mut line = Line::new();
    line.number(b"root production ", u64::from(production));
    line.kids(root, n);
    line.word(b"\n");
    line.put(buf, at)
}

// A node of the circle and the link that leaves it.
#[tactic(auto, unfolding(texts::specs::Lines::link_text))]
pub fn put_link(buf: &mut [u8], at: usize, node: u8, mark: u8) -> usize
    ensures { Written (link_text node mark) at buf.old buf.new result }
{
    let mut line = Line::new();
    line.number(b" ", u64::from(node));
    line.word(if mark == 1 { b" edge" } else { b" pair" });
    line.put(buf, at)
}

pub fn put_word(buf: &mut [u8], at: usize, word: &[u8]) -> usize
    ensures { Written word.now at buf.old buf.new result }
{
    let len = word.len();
    if buf.len() < len || buf.len() - len < at {
        return at;
    }
    buf[at..at + len].copy_from_slice(word);
    at + len
}

#[tactic(auto, unfolding(texts::specs::Lines::first_line))]
fn first_line(report: Report) -> Line
    ensures { result ≡ first_line report }
{
    match report.answer {
        Answer::Noncircular => counted(b"noncircular", report),
        Answer::Circular(_) => counted(b"circular", report),
        Answer::Refused(broken) => refused(broken),
        Answer::OutOfSteps => counted(b"out-of-steps", report),
        Answer::OutOfRoom => counted(b"out-of-room", report),
    }
}

#[tactic(auto, unfolding(texts::specs::Lines::counts))]
fn counted(word: &[u8], report: Report) -> Line
    requires { length word.now ≤ 12 }
    ensures { result ≡ word.now ++ counts report.closures report.entries report.passes }
{
    let mut line = Line::new();
    line.word(word);
    line.number(b" closures ", u64::from(report.closures));
    line.number(b" entries ", u64::from(report.entries));
    line.number(b" passes ", u64::from(report.passes));
    line.word(b"\n");
    line
}

#[tactic(auto, unfolding(texts::specs::Lines::spaced))]
fn refused(broken: Broken) -> Line
    ensures { result ≡ ascii "refused" ++ spaced (broken_numbers broken) ++ newline }
{
    let mut line = Line::new();
    match broken {
        Broken::Rule(number) => line.number(b"refused ", u64::from(number)),
        Broken::Record(number, which) => {
            line.number(b"refused ", u64::from(number));
            line.number(b" ", u64::from(which));
        }
    }
    line.word(b"\n");
    line
}
