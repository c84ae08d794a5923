// Entries in four parallel lent slices of numbers: how many there is room for, what one of them holds, and the six steps for one
// combination.
#![tactic(auto)]

ghost use Rattle.std.specs.Prelude.{◌≡◌};
ghost use Rattle.steps.specs.Slices.{room_for, room_of, entry_in, put_in, slices};
ghost use Rattle.steps.specs.Lent.{held, read, Lent};
ghost use Rattle.steps.specs.Step.{goes_on, stops, seen_in, least, Judges, Tried};

use grammar::SLOTS;
use rules::{Answer, Entry, MOST_ENTRIES};

// Entries in four parallel slices, as they are lent to be written: the caller's, and the C interface's, own form.
#[derive(Drop)]
pub struct Store<'a> {
    pub symbols: &'a mut [u16],
    pub graphs: &'a mut [u64],
    pub productions: &'a mut [u16],
    pub kids: &'a mut [u16],
}

// The same, to be read.
#[derive(Clone, Copy)]
pub struct Entries<'a> {
    pub symbols: &'a [u16],
    pub graphs: &'a [u64],
    pub productions: &'a [u16],
    pub kids: &'a [u16],
}

impl Store<'_> {
    pub fn entries(&self) -> Entries<'_>
        ensures { read result ≡ held self.now }
    {
        Entries {
            symbols: &*self.symbols,
            graphs: &*self.graphs,
            productions: &*self.productions,
            kids: &*self.kids,
        }
    }

    // Stores an entry as number i, where the slices have room for it.
    fn put(&mut self, i: usize, entry: Entry)
        ensures put { held self.new ≡ put_in (held self.old) i entry }
        ensures lent { Lent self.old self.new }
    {
        if i < self.entries().room() {
            self.symbols[i] = entry.symbol;
            self.graphs[i] = entry.graph;
            self.productions[i] = entry.production;
            let at = SLOTS * i;
            self.kids[at..at + SLOTS].copy_from_slice(&entry.kids);
        }
    }
}

impl Entries<'_> {
    // For how many entries the slices have room.
    pub fn room(self) -> usize
        ensures { result ≡ room_of (read self.entry) }
    {
        room_of(
            self.symbols.len(),
            self.graphs.len(),
            self.productions.len(),
            self.kids.len(),
        )
    }

    // The entry of a number; where the slices hold none, one of zeros.
    pub fn entry(self, i: usize) -> Entry
        ensures { result ≡ entry_in (read self.entry) i }
    {
        entry_of(self.symbols, self.graphs, self.productions, self.kids, i)
    }

    // Whether the symbol with the graph is among the first `stored` entries that have both, which are looked at from the last down.
    fn seen(self, symbol: u16, graph: u64, stored: usize) -> bool
        ensures { result ≡ seen_in self.entry.symbols.now self.entry.graphs.now symbol graph
            (least self.entry.symbols.now self.entry.graphs.now stored) }
    {
        let both = stored.min(self.symbols.len()).min(self.graphs.len());
        // By number, since two slices are gone down together.
        for k in (0..both).rev() {
            if self.symbols[k] == symbol && self.graphs[k] == graph {
                return true;
            }
        }
        false
    }
}

// Where the passes stand: the closures that are left and how many entries are stored.
#[derive(Clone, Copy)]
pub struct Run {
    pub left: u32,
    pub stored: usize,
}

// How a run has stopped, and where. The root is that of a circular answer, and 0 elsewhere.
#[derive(Clone, Copy)]
pub struct Stop {
    pub answer: Answer,
    pub root: [u16; SLOTS],
    pub run: Run,
}

// What the tries of a turn have in common: the number of its production, the left symbol, how many right symbols there are, and the room.
#[derive(Clone, Copy)]
pub struct Task {
    pub number: u16,
    pub symbol: u16,
    pub count: usize,
    pub room: usize,
}

// What is to be done with one combination.
#[derive(Clone, Copy)]
pub enum Verdict {
    Steps,
    Circle,
    Known,
    Full,
    New,
}

// Steps 1 to 5: the graph of a new entry, or the verdict by which none is stored.
fn judge(
    entries: Entries<'_>,
    edges: &[u8],
    task: Task,
    picked: &[u16; SLOTS],
    left: u32,
    stored: usize,
) -> Result<u64, Verdict>
    ensures { Judges task edges.now (read entries.entry) left stored picked.now result }
{
    if left == 0 {
        return Err(Verdict::Steps);
    }
    let made = closures::closure(edges, entries.graphs, picked, task.count);
    if made.circle {
        return Err(Verdict::Circle);
    }
    if entries.seen(task.symbol, made.graph, stored) {
        return Err(Verdict::Known);
    }
    if stored == task.room {
        return Err(Verdict::Full);
    }
    Ok(made.graph)
}

// How many entries slices of these lengths hold.
pub fn room_of(symbols: usize, graphs: usize, productions: usize, kids: usize) -> usize
    ensures { result ≡ room_for symbols graphs productions kids }
{
    MOST_ENTRIES
        .min(symbols)
        .min(graphs)
        .min(productions)
        .min(kids / SLOTS)
}

// The entry of a number in four slices; where they hold none, one of zeros.
pub fn entry_of(
    symbols: &[u16],
    graphs: &[u64],
    productions: &[u16],
    kids: &[u16],
    i: usize,
) -> Entry
    ensures { result ≡ entry_in (slices symbols.now graphs.now productions.now kids.now) i }
{
    if room_of(symbols.len(), graphs.len(), productions.len(), kids.len()) <= i {
        return Entry {
            symbol: 0,
            graph: 0,
            production: 0,
            kids: [0u16; SLOTS],
        };
    }
    let at = SLOTS * i;
    let mut slots = [0u16; SLOTS];
    slots.copy_from_slice(&kids[at..at + SLOTS]);
    Entry {
        symbol: symbols[i],
        graph: graphs[i],
        production: productions[i],
        kids: slots,
    }
}

// A run that goes on, with so many closures left and so many entries stored.
pub fn going_on(left: u32, stored: usize) -> Result<Run, Stop>
    ensures { result ≡ goes_on left stored }
{
    Ok(Run { left, stored })
}

// A run that has stopped.
pub fn stopped(answer: Answer, root: [u16; SLOTS], left: u32, stored: usize) -> Result<Run, Stop>
    ensures { result ≡ stops answer root left stored }
{
    Err(Stop {
        answer,
        root,
        run: Run { left, stored },
    })
}

// The six steps for one combination of the stored entries.
pub fn try_one(
    store: &mut Store<'_>,
    edges: &[u8],
    task: Task,
    picked: &[u16; SLOTS],
    run: Run,
) -> Verdict
    ensures tried { Tried task edges.now picked.now run.left run.stored (held store.old) result (held store.new) }
    ensures lent { Lent store.old store.new }
{
    match judge(store.entries(), edges, task, picked, run.left, run.stored) {
        Err(verdict) => verdict,
        Ok(graph) => {
            store.put(
                run.stored,
                Entry {
                    symbol: task.symbol,
                    graph,
                    production: task.number,
                    kids: *picked,
                },
            );
            Verdict::New
        }
    }
}
