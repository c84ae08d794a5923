// The circularity test: the passes over four parallel lent slices of numbers.
#![tactic(auto)]

ghost use Rattle.std.specs.Prelude.{◌≡◌, true, Ok, [], ◌∷◌, ◌≤◌, ◌<◌, length, take};
ghost use Rattle.numbers.specs.Lists.{up_from};
ghost use Rattle.grammar.specs.Table.{P, grammar_of};
ghost use Rattle.grammar.specs.Refusal.{refusal};
ghost use Rattle.parts.specs.Rule.{taking};
ghost use Rattle.rules.specs.Passes as stated;
ghost use Rattle.rules.specs.Test.{system_in, report_with};
ghost use Rattle.passes.specs.Slices.{room_of, Tells, Tested};
ghost use Rattle.steps.specs.Lent.{held, Lent};
ghost use Rattle.steps.specs.Step.{counts, run_at};
ghost use Rattle.turns.specs.Turning.{of_symbol, Numbers, Firsts};
ghost use Rattle.passes.specs.Follow.{ending_of, unsaid, Follows, Roomy, InTurn, over, task_of, combos_in, parts_among, circle_over};

use grammar::{Production, SLOTS};
use graph::Trail;
use rules::{Answer, Report};
use steps::{Run, Stop, Store, Task, Verdict};
use walks::TakingPart;

// How the passes have ended: of a report all but the circle.
#[derive(Clone, Copy)]
pub struct Ending {
    pub answer: Answer,
    pub root: [u16; SLOTS],
    pub closures: u32,
    pub entries: u16,
    pub passes: u16,
}

// The run after a verdict.
#[tactic(auto, unfolding(steps::specs::Step::run_at))]
fn run_after(verdict: Verdict, number: u16, picked: [u16; SLOTS], run: Run) -> Result<Run, Stop>
    requires { (counts verdict ≡ true → 1 ≤ run.left) × (run.stored ≤ 4096) }
    ensures { result ≡ run_at verdict number picked run.left run.stored }
{
    let Run { left, stored } = run;
    match verdict {
        Verdict::Steps => steps::stopped(Answer::OutOfSteps, [0u16; SLOTS], left, stored),
        Verdict::Circle => steps::stopped(Answer::Circular(number), picked, left - 1, stored),
        Verdict::Known => steps::going_on(left - 1, stored),
        Verdict::Full => steps::stopped(Answer::OutOfRoom, [0u16; SLOTS], left - 1, stored),
        Verdict::New => steps::going_on(left - 1, stored + 1),
    }
}

// The combinations of a turn that begins with this run, from the first of them on.
fn combine(
    store: &mut Store<'_>,
    edges: &[u8],
    task: Task,
    rights: &[u16; SLOTS],
    firsts: &[u16; SLOTS],
    run: Run,
) -> Result<Run, Stop>
    requires { InTurn task rights.now run.stored (held store.old) run
        × Numbers task.count run.stored firsts.now × Firsts (of_symbol store.old.symbols.now rights.now) run.stored task.count firsts.now }
    ensures follows { Follows task.room
        (over task rights.now edges.now (combos_in task rights.now run.stored store.old.symbols.now))
        (held store.old) run
        (held store.new) result }
    ensures lent { Lent store.old store.new }
{
    let first = run.stored as u16;
    let mut now = run;
    let mut picked = *firsts;
    loop {
        let verdict = steps::try_one(store, edges, task, &picked, now);
        now = run_after(verdict, task.number, picked, now)?;
        let more = turns::next_combination(
            store.entries().symbols,
            rights,
            firsts,
            task.count,
            first,
            &mut picked,
        );
        if !more {
            return Ok(now);
        }
    }
}

// The task of a turn of a production, which has the number `number`.
#[tactic(auto, unfolding(crate::specs::Follow::task_of))]
fn task_of(number: usize, production: Production, room: usize) -> Task
    requires { number < 512 }
    ensures { result ≡ task_of number production room }
{
    Task {
        number: number as u16,
        symbol: production.left,
        count: numbers::wide(production.n),
        room,
    }
}

// The end after `begun` passes: the closures that are not left have been made.
fn ended(stop: Stop, limit: u32, begun: u16) -> Ending
    requires { (stop.run.left ≤ limit) × (stop.run.stored ≤ 4096) }
    ensures { result ≡ ending_of stop.answer stop.root limit stop.run begun }
{
    let Stop { answer, root, run } = stop;
    Ending {
        answer,
        root,
        closures: limit - run.left,
        entries: run.stored as u16,
        passes: begun,
    }
}

// What the passes over a table that is not refused go by: the table, the productions that take part, and the room for entries.
#[derive(Clone, Copy)]
struct Plan<'a> {
    table: &'a [u8],
    part: TakingPart,
    room: usize,
    ghost taken: { refusal table.now ≡ Ok tt },
    ghost parts: { parts_among part.treed.words part.reached.words (grammar_of table.now) (up_from 0 (P table.now)) ≡ taking (grammar_of table.now) },
}

impl<'a> Plan<'a> {
    fn of(table: &'a [u8], room: usize) -> Self
        requires { refusal table.now ≡ Ok tt }
        ensures { (result.table.now ≡ table.now) × (result.room ≡ room) }
    {
        Plan {
            table,
            part: TakingPart::of(table),
            room,
        }
    }

    // One turn, if the production takes part. Where a right symbol has no entry it ends at once, whether it does or not.
    fn turn(&self, number: usize, store: &mut Store<'_>, run: Run) -> Result<Run, Stop>
        requires { (number < P self.now.table.now) × Roomy self.now.room (held store.old) run }
        ensures follows { Follows self.now.room (λ limit. stated.pass (system_in self.now.table.now) limit self.now.room
            (parts_among self.now.part.treed.words self.now.part.reached.words (grammar_of self.now.table.now) (number ∷ [])))
            (held store.old) run
            (held store.new) result }
        ensures lent { Lent store.old store.new }
    {
        let production = tables::production_of(self.table, number);
        let rights = production.slots;
        let count = numbers::wide(production.n);
        let first = run.stored as u16;
        let mut firsts = [0u16; SLOTS];
        if !turns::first_candidates(store.entries().symbols, &rights, count, first, &mut firsts) {
            return Ok(run);
        }
        if !self.part.has(&production) {
            return Ok(run);
        }
        let edges = tables::run_of(self.table, number);
        let task = task_of(number, production, self.room);
        combine(store, edges, task, &rights, &firsts, run)
    }

    // One pass: the productions that take part, by number.
    fn pass(&self, store: &mut Store<'_>, run: Run) -> Result<Run, Stop>
        requires { Roomy self.now.room (held store.old) run }
        ensures follows { Follows self.now.room
            (λ limit. stated.pass (system_in self.now.table.now) limit self.now.room (taking (grammar_of self.now.table.now)))
            (held store.old) run
            (held store.new) result }
        ensures lent { Lent store.old store.new }
    {
        let count = numbers::wide(tables::header_of(self.table).productions);
        let mut now = run;
        for number in 0..count {
            now = self.turn(number, store, now)?;
        }
        Ok(now)
    }

    // Passes until one has stored nothing, or the run stops.
    fn passes(&self, store: &mut Store<'_>, limit: u32) -> Ending
        requires { self.now.room ≡ room_of (held store.old) }
        ensures tells { Tells
            (stated.passes (system_in self.now.table.now) limit self.now.room (taking (grammar_of self.now.table.now)))
            (held store.old) (unsaid result) (held store.new) }
        ensures lent { Lent store.old store.new }
    {
        let mut now = Run {
            left: limit,
            stored: 0,
        };
        let mut begun: u16 = 0;
        loop {
            let before = now.stored;
            begun += 1;
            now = match self.pass(store, now) {
                Ok(now) => now,
                Err(stop) => return ended(stop, limit, begun),
            };
            if now.stored == before {
                let done = Stop {
                    answer: Answer::Noncircular,
                    root: [0u16; SLOTS],
                    run: now,
                };
                return ended(done, limit, begun);
            }
        }
    }

    // Where the answer is circular, the circle of the root, whose entries have these graphs.
    fn circle_said(&self, graphs: &[u64], root: [u16; SLOTS], answer: Answer) -> Trail
        ensures { result ≡ circle_over self.now.table.now graphs.now root answer }
    {
        match answer {
            Answer::Circular(p) => circles::circle_of(self.table, graphs, numbers::wide(p), root),
            _ => search::no_trail(),
        }
    }

    // The report, with the circle. Only the graphs of stored entries are read.
    fn reported(&self, graphs: &[u64], ending: Ending) -> Report
        requires { ending.entries ≤ length graphs.now }
        ensures { result ≡ report_with
            (circle_over self.now.table.now (take ending.entries graphs.now) ending.root ending.answer) (unsaid ending) }
    {
        let Ending {
            answer,
            root,
            closures,
            entries,
            passes,
        } = ending;
        let circle = self.circle_said(&graphs[..numbers::wide(entries)], root, answer);
        Report {
            answer,
            closures,
            entries,
            passes,
            root,
            circle,
        }
    }
}

// The circularity test of a table with at most `limit` closures. The stored entries are left at the front of the slices.
pub fn test(table: &[u8], limit: u32, store: &mut Store<'_>) -> Report
    ensures tested { Tested table.now limit (held store.old) result (held store.new) }
    ensures lent { Lent store.old store.new }
{
    let checked = checks::check(table);
    if let Err(broken) = checked {
        return Report {
            answer: Answer::Refused(broken),
            closures: 0,
            entries: 0,
            passes: 0,
            root: [0u16; SLOTS],
            circle: search::no_trail(),
        };
    }
    let plan = Plan::of(table, store.entries().room());
    let ending = plan.passes(store, limit);
    plan.reported(store.entries().graphs, ending)
}
