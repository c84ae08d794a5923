// Which productions of a table take part: two sets of symbols, found by walks over the productions.
#![tactic(auto)]

ghost use Rattle.std.specs.Prelude.{◌≡◌, true, Bool, List, ℕ, ◌+◌, ◌≤◌, ◌<◌, leb, ltb, length, get_or, take};
ghost use mathlib.Core.List.{Memᴰ};
ghost use Rattle.numbers.specs.Lists.{every};
ghost use Rattle.grammar.specs.declared.Production.{Production};
ghost use Rattle.grammar.specs.Grammar.{rights};
ghost use Rattle.grammar.specs.Table.{at_edges, grammar_of};
ghost use Rattle.parts.specs.Sets as sets;
ghost use Rattle.parts.specs.Rule as rule;
ghost use Rattle.parts.proofs.Sets.{In, Within, IsSet};
ghost use Rattle.parts.proofs.Rule.{grows, grows_more, spreads, spreads_more, only_left};
ghost use Rattle.parts.proofs.Walks.{step as stepped};
ghost use Rattle.walks.specs.Walk.{turned, Whole, Added};

use grammar::{MOST_SYMBOLS, PRODUCTION_BYTES, Production, SLOTS};
use numbers::two_at;
use parts::WORDS;
use std::marker::Model;
use tables::{header_of, offsets_of};

// A set of symbols, with a bit for each of the 256 that there may be.
#[derive(Clone, Copy, PartialEq, Eq)]
pub struct SymbolSet {
    pub words: [u64; WORDS],
    pub ghost is_set: { IsSet words },
}

impl SymbolSet {
    fn empty() -> Self
        ensures { result.words ≡ sets.none }
    {
        SymbolSet { words: [0; WORDS] }
    }

    fn has(&self, s: u16) -> bool
        ensures { result ≡ sets.has self.now.words s }
    {
        let k = s as usize;
        s < MOST_SYMBOLS && (self.words[k / 64] >> (k % 64)) & 1 == 1
    }

    // Whether each of these symbols is in the set.
    fn has_each(&self, symbols: &[u16]) -> bool
        ensures { result ≡ every (sets.has self.now.words) symbols.now }
    {
        symbols.iter().all(|s| self.has(*s))
    }

    // Whether there may be such a symbol; else nothing changes. A bool, as the insertion of the library's sets gives.
    fn add(&mut self, s: u16) -> bool
        ensures { (self.new.words ≡ sets.add self.old.words s) × (result ≡ ltb s 256) }
    {
        if MOST_SYMBOLS <= s {
            return false;
        }
        let k = s as usize;
        self.words[k / 64] |= 1 << (k % 64);
        true
    }
}

// A production where its record stands in the table, which is read as far as it is needed.
#[derive(Drop)]
struct Record<'a> {
    bytes: &'a [u8],
}

impl<'a> Model for Record<'a> {
    ghost use Rattle.std.specs.Prelude.{◌≡◌, length};
    ghost use Rattle.grammar.specs.Table.{production_in};
    ghost use Rattle.grammar.specs.declared.Production.{Production};

    ghost Value = { Production };

    ghost view = { λ r. production_in r.bytes.now 0 };

    ghost invariant = { λ r. length r.bytes.now ≡ 18 };
}

impl Record<'_> {
    fn left(&self) -> u16
        ensures { result ≡ self.now.left }
    {
        two_at(self.bytes, 0)
    }

    // How many right symbols it has.
    fn count(&self) -> usize
        ensures { result ≡ length (rights self.now) }
    {
        usize::from(two_at(self.bytes, 2)).min(SLOTS)
    }

    // Its right symbol k.
    fn right(&self, k: usize) -> u16
        requires { k < length (rights self.now) }
        ensures { result ≡ get_or (rights self.now) k 0 }
    {
        two_at(self.bytes, 4 + 2 * k)
    }

    // Each right symbol is in the set. With `all` over the numbers an answer on 512 productions took 2% more instructions.
    fn all_in(&self, set: &SymbolSet) -> bool
        ensures { result ≡ every (sets.has set.now.words) (rights self.now) }
    {
        for k in 0..self.count() {
            if !set.has(self.right(k)) {
                return false;
            }
        }
        true
    }

    // The right symbols are added.
    fn add_to(&self, set: &mut SymbolSet)
        ensures { set.new.words ≡ sets.add_all set.old.words (rights self.now) }
    {
        for k in 0..self.count() {
            set.add(self.right(k));
        }
    }
}

// ---- what a walk does at each production

// A production adds its targets to a set where its test passes.
trait Step {
    ghost test: { Self → sets.Symbols → Production → Bool };

    ghost targets: { Self → Production → List ℕ };

    // Whether something was added.
    fn take(&self, production: &Record, set: &mut SymbolSet) -> bool
        ensures { (set.new.words ≡ stepped (test self.now) (targets self.now) set.old.words production.now)
            × Added set.old.words set.new.words result };

    // Whether it is seen at once that nothing is left to add.
    fn is_done(&self, set: &SymbolSet) -> bool
        ensures { result ≡ true → (p : Production) → test self.now set.now.words p ≡ true
            → (s : ℕ) → Memᴰ s (targets self.now p) → In set.now.words s };

    // What passes over a set passes over a greater one.
    ghost more: { (x : Self) (A B : sets.Symbols) (p : Production) → Within A B → test x A p ≡ true → test x B p ≡ true };
}

// The left symbol has a finite tree if each right symbol has.
struct Grow;

impl Step for Grow {
    ghost test = { λ _. grows };

    ghost targets = { λ _. only_left };

    // A left symbol that has a finite tree already needs no second.
    fn take(&self, production: &Record, set: &mut SymbolSet) -> bool {
        let left = production.left();
        !set.has(left) && production.all_in(set) && set.add(left)
    }

    fn is_done(&self, _set: &SymbolSet) -> bool {
        false
    }

    ghost more = { λ _. grows_more };
}

// The right symbols of a reached symbol are reached, where they all are in `trees`.
#[derive(Clone, Copy)]
struct Spread<'a> {
    trees: &'a SymbolSet,
}

impl Step for Spread<'_> {
    ghost test = { λ x. spreads x.trees.now.words };

    ghost targets = { λ _. rights };

    // Right symbols that are all reached already are added to no purpose.
    fn take(&self, production: &Record, set: &mut SymbolSet) -> bool {
        let adds = set.has(production.left())
            && !production.all_in(set)
            && production.all_in(self.trees);
        if adds {
            production.add_to(set);
        }
        adds
    }

    fn is_done(&self, set: &SymbolSet) -> bool {
        *set == *self.trees
    }

    ghost more = { λ x. spreads_more x.trees.now.words };
}

// ---- walks over the productions

// One walk, up from the first or down from the last; whether something was added. The direction is a flag, since 0..n and (0..n).rev() are of
// two types: two loops would say the step twice. With `more |=` an answer on 512 productions took 7% more instructions.
fn walk<S: Step>(table: &[u8], step: &S, set: &mut SymbolSet, up: bool) -> bool
    requires { Whole table.now }
    ensures { (set.new.words
        ≡ rule.walk (stepped (S.test step.now) (S.targets step.now)) (turned up (grammar_of table.now).productions) set.old.words)
        × Added set.old.words set.new.words result }
{
    let n = usize::from(header_of(table).productions);
    let first = offsets_of(table).productions as usize;
    let mut more = false;
    for i in 0..n {
        let number = if up { i } else { n - 1 - i };
        let at = first + PRODUCTION_BYTES * number;
        let production = Record {
            bytes: &table[at..at + PRODUCTION_BYTES],
        };
        if step.take(&production, set) {
            more = true;
        }
    }
    more
}

// Walks until nothing is left to add. One goes up and the next down, so that the order of the table matters little.
fn grown_out<S: Step>(table: &[u8], step: &S, begun: SymbolSet) -> SymbolSet
    requires { Whole table.now }
    ensures { result.words
        ≡ rule.grown_out (rule.walk (stepped (S.test step.now) (S.targets step.now)) (grammar_of table.now).productions) begun.words }
{
    let mut set = begun;
    let mut up = true;
    while !step.is_done(&set) && walk(table, step, &mut set, up) {
        up = !up;
    }
    set
}

// The start symbol, if it has a finite tree.
fn begin(trees: &SymbolSet, start: u16) -> SymbolSet
    ensures { result.words ≡ rule.begun trees.now.words start }
{
    let mut set = SymbolSet::empty();
    if trees.has(start) {
        set.add(start);
    }
    set
}

// ---- the two sets of a table: where the bytes end before the productions do, no symbol is in them

fn is_whole(table: &[u8]) -> bool
    ensures { result ≡ leb (at_edges table.now) (length table.now) }
{
    offsets_of(table).edges as usize <= table.len()
}

// The symbols that have a finite tree.
pub fn treed_of(table: &[u8]) -> SymbolSet
    ensures { result.words ≡ rule.if_whole table.now (rule.treed (grammar_of table.now)) }
{
    if is_whole(table) {
        grown_out(table, &Grow, SymbolSet::empty())
    } else {
        SymbolSet::empty()
    }
}

// The symbols that are reached from the start symbol, where those of `treed` have a finite tree.
pub fn reached_of(table: &[u8], treed: &SymbolSet) -> SymbolSet
    ensures { result.words ≡ rule.if_whole table.now (rule.reached (grammar_of table.now) treed.now.words) }
{
    if is_whole(table) {
        let begun = begin(treed, header_of(table).start);
        grown_out(table, &Spread { trees: treed }, begun)
    } else {
        SymbolSet::empty()
    }
}

// ---- one production

// Whether a production takes part, by the two sets.
pub fn takes_part(production: Production, treed: &SymbolSet, reached: &SymbolSet) -> bool
    ensures { result ≡ rule.takes_part treed.now.words reached.now.words production }
{
    let count = usize::from(production.n).min(SLOTS);
    reached.has(production.left) && treed.has_each(&production.slots[..count])
}

// ---- both sets

// The productions of a table that take part, by its two sets.
#[derive(Clone, Copy, PartialEq, Eq)]
pub struct TakingPart {
    pub treed: SymbolSet,
    pub reached: SymbolSet,
}

impl TakingPart {
    pub fn of(table: &[u8]) -> Self
        ensures { (result.treed.words ≡ rule.if_whole table.now (rule.treed (grammar_of table.now)))
            × (result.reached.words ≡ rule.if_whole table.now (rule.reached (grammar_of table.now) result.treed.words)) }
    {
        let treed = treed_of(table);
        let reached = reached_of(table, &treed);
        TakingPart { treed, reached }
    }

    pub fn has(&self, production: &Production) -> bool
        ensures { result ≡ rule.takes_part self.now.treed.words self.now.reached.words production.now }
    {
        takes_part(*production, &self.treed, &self.reached)
    }
}
