// What Rust and C are given as numbers: what a check says, a path or a circle, and a report.
#![tactic(auto)]

ghost use Rattle.std.specs.Prelude.{◌≡◌, length};
ghost use Rattle.rules.specs.Passes.{number_of, value_of};
ghost use Rattle.flats.specs.Flat.{flat_check, trail_numbers, flat_trail, flat};

use grammar::{Broken, NODES, SLOTS};
use graph::Trail;
use rules::{Answer, Report};

// Stands where there is no production and no record.
const NONE: u32 = 4294967295;

// How many numbers tell a path or a circle.
pub const TRAIL: usize = 1 + 2 * NODES;

// Where the root's entry numbers begin in those of a report, and where its circle.
const KIDS: usize = 5;

const CIRCLE: usize = KIDS + SLOTS;

// How many numbers tell a report.
pub const REPORT: usize = CIRCLE + TRAIL;

// What a check says in two numbers, left in the lent array.
pub fn flat_check(checked: Result<(), Broken>, out: &mut [u32; 2])
    ensures { out.new ≡ flat_check checked }
{
    *out = match checked {
        Ok(()) => [0, NONE],
        Err(Broken::Rule(k)) => [u32::from(k), NONE],
        Err(Broken::Record(k, i)) => [u32::from(k), u32::from(i)],
    };
}

fn number_of(answer: Answer) -> u32
    ensures { result ≡ number_of answer }
{
    match answer {
        Answer::Noncircular => 0,
        Answer::Circular(_) => 255,
        Answer::Refused(Broken::Rule(k) | Broken::Record(k, _)) => u32::from(k),
        Answer::OutOfSteps => 8,
        Answer::OutOfRoom => 9,
    }
}

fn value_of(answer: Answer) -> u32
    ensures { result ≡ value_of answer }
{
    match answer {
        Answer::Circular(p) => u32::from(p),
        Answer::Refused(Broken::Record(_, i)) => u32::from(i),
        Answer::Refused(Broken::Rule(_)) => NONE,
        Answer::Noncircular | Answer::OutOfSteps | Answer::OutOfRoom => NONE,
    }
}

// A path or a circle in the numbers of a lent slice: of a part of a report, which is no array, or of an array.
fn trail_in(trail: &Trail, out: &mut [u32])
    requires { length out.old ≡ trail_numbers }
    ensures { out.new ≡ flat_trail trail.now }
{
    out[0] = u32::from(trail.len);
    // By index, since each node and its mark are read and written at four places of one number.
    for i in 0..NODES {
        out[1 + i] = u32::from(trail.nodes[i]);
        out[1 + NODES + i] = u32::from(trail.marks[i]);
    }
}

// A path or a circle in numbers, left in the lent array.
pub fn flat_trail(trail: &Trail, out: &mut [u32; TRAIL])
    ensures { out.new ≡ flat_trail trail.now }
{
    trail_in(trail, out);
}

// A report in numbers, left in the lent array, its circle after the first twelve.
pub fn flat_report(report: Report, out: &mut [u32; REPORT])
    ensures { out.new ≡ flat report }
{
    out[0] = number_of(report.answer);
    out[1] = value_of(report.answer);
    out[2] = report.closures;
    out[3] = u32::from(report.entries);
    out[4] = u32::from(report.passes);
    out[KIDS..CIRCLE].copy_from_slice(&report.root.map(u32::from));
    trail_in(&report.circle, &mut out[CIRCLE..]);
}
