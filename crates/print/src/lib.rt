// The text of a report at the front of a buffer that the caller lends.
#![tactic(auto)]

ghost use Rattle.std.specs.Prelude.{◌≡◌, ◌+◌, ◌*◌, ◌≤◌, ◌<◌, leb, length, take};
ghost use Rattle.numbers.specs.Lists.{both};
ghost use Rattle.graph.specs.Parts.{most_nodes};
ghost use Rattle.lines.specs.Buffer.{line_bytes};
ghost use Rattle.texts.specs.Lines.{first_line, root_line, links_text, circle_line, entry_lines, root_lines, rest, printed};
ghost use Rattle.steps.specs.Lent.{read};
ghost use Rattle.passes.specs.Slices.{room_of, entry_at, entries_to, read_out};
ghost use Rattle.print.specs.Texts.{kids_in, entry_text, Placed, bytes_for, circle_bytes, link_bytes, enough, CirclePut, Printed};

use grammar::{NODES, SLOTS};
use graph::Trail;
use lines::LINE_BYTES;
use rules::{Answer, Report};
use steps::Entries;

// The lines that a report may have besides those of its entries: the first, the root's, and the circle's, which may be as long as
// five.
pub const OTHER_LINES: usize = 7;

// No circle's line has more.
const CIRCLE_BYTES: usize = LINE_BYTES * 5;

// How many kids the trees of a production have.
fn kids_in(table: &[u8], p: u16) -> usize
    ensures { result ≡ kids_in table.now p }
{
    let production = tables::production_of(table, numbers::wide(p));
    numbers::wide(production.n)
}

// A lent buffer, and the place behind what stands in it so far.
#[derive(Drop)]
struct Page<'a> {
    buf: &'a mut [u8],
    at: usize,
}

impl Page<'_> {
    fn first_line(&mut self, report: Report)
        ensures { Placed (first_line report) line_bytes self.old self.new }
    {
        self.at = lines::put_first(self.buf, self.at, report);
    }

    fn entry_line(&mut self, table: &[u8], entries: Entries<'_>, i: usize)
        requires { i < room_of (read entries) }
        ensures { Placed (entry_text (kids_in table.now) i (entry_at (read entries.entry) i)) line_bytes self.old self.new }
    {
        let entry = entries.entry(i);
        self.at = lines::put_entry(
            self.buf,
            self.at,
            i as u16,
            entry.symbol,
            entry.production,
            entry.kids,
            kids_in(table, entry.production),
            entry.graph,
        );
    }

    fn entry_lines(&mut self, table: &[u8], entries: Entries<'_>, count: usize)
        requires { (count ≤ room_of (read entries)) × (self.old.at + line_bytes * count ≤ length self.old.buf.now) }
        ensures { Placed (entry_lines (kids_in table.now) 0 (entries_to (read entries.entry) count))
            (line_bytes * count) self.old self.new }
    {
        // By number, which is printed.
        for i in 0..count {
            self.entry_line(table, entries, i);
        }
    }

    fn root_line(&mut self, table: &[u8], p: u16, root: [u16; SLOTS])
        ensures { Placed (root_line p (take (kids_in table.now p) root)) line_bytes self.old self.new }
    {
        self.at = lines::put_root(self.buf, self.at, p, root, kids_in(table, p));
    }

    // Of the places the first `len` count, all of them where it is more.
    fn links(&mut self, circle: Trail)
        requires { self.old.at + link_bytes * most_nodes ≤ length self.old.buf.now }
        ensures { Placed (links_text (take circle.len circle.nodes) (take circle.len circle.marks))
            (link_bytes * most_nodes) self.old self.new }
    {
        let count = NODES.min(usize::from(circle.len));
        // By index, as the nodes and the marks are told (`links_text`).
        for i in 0..count {
            self.at = lines::put_link(self.buf, self.at, circle.nodes[i], circle.marks[i]);
        }
    }

    fn word(&mut self, word: &[u8])
        ensures { Placed word.now (length word.now) self.old self.new }
    {
        self.at = lines::put_word(self.buf, self.at, word);
    }

    fn circle_line(&mut self, circle: Trail)
        requires { self.old.at + circle_bytes ≤ length self.old.buf.now }
        ensures { Placed (circle_line circle) circle_bytes self.old self.new }
    {
        self.word(b"circle");
        self.links(circle);
        self.word(b"\n");
    }

    // What follows the entries of a circular answer.
    fn root_lines(&mut self, table: &[u8], p: u16, report: Report)
        requires { self.old.at + line_bytes * 6 ≤ length self.old.buf.now }
        ensures { Placed (root_lines (kids_in table.now) report p) (line_bytes * 6) self.old self.new }
    {
        self.root_line(table, p, report.root);
        self.circle_line(report.circle);
    }

    // What follows the first line.
    fn rest_lines(&mut self, table: &[u8], report: Report, entries: Entries<'_>)
        requires { (report.entries ≤ room_of (read entries))
            × (self.old.at + line_bytes * (report.entries + 6) ≤ length self.old.buf.now) }
        ensures { Placed
            (rest report.answer
            (entry_lines (kids_in table.now) 0 (entries_to (read entries.entry) report.entries))
            (root_lines (kids_in table.now) report))
            (line_bytes * (report.entries + 6)) self.old self.new }
    {
        if let Answer::Refused(_) = report.answer {
            return;
        }
        self.entry_lines(table, entries, numbers::wide(report.entries));
        if let Answer::Circular(p) = report.answer {
            self.root_lines(table, p, report);
        }
    }
}

// The line of a circle, where the buffer has room for the longest from `at` on; else nothing is written.
pub fn put_circle(buf: &mut [u8], at: usize, circle: Trail) -> usize
    ensures { CirclePut circle at buf.old buf.new result }
{
    if buf.len() < CIRCLE_BYTES || buf.len() - CIRCLE_BYTES < at {
        return at;
    }
    let mut page = Page { buf, at };
    page.circle_line(circle);
    page.at
}

// Whether there is room for so many entries, and in so many bytes for the line of each and for the others.
#[tactic(auto, unfolding(numbers::specs::Lists::both))]
fn is_enough(count: usize, room: usize, bytes: usize) -> bool
    requires { count < 65536 }
    ensures { result ≡ both (leb count room) (leb (bytes_for count) bytes) }
{
    count <= room && LINE_BYTES * (count + OTHER_LINES) <= bytes
}

// The text of a report. Where the slices hold fewer entries than it says, or the buffer less than LINE_BYTES for the line of each and
// for OTHER_LINES, nothing is written and the answer is 0.
pub fn report_text(buf: &mut [u8], table: &[u8], report: Report, entries: Entries<'_>) -> usize
    ensures { Printed
        (printed (kids_in table.now) (read_out report (read entries.entry)))
        (enough report (read entries.entry) buf.old) buf.old buf.new result }
{
    if !is_enough(numbers::wide(report.entries), entries.room(), buf.len()) {
        return 0;
    }
    let mut page = Page { buf, at: 0 };
    page.first_line(report);
    page.rest_lines(table, report, entries);
    page.at
}
