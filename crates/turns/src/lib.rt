// The combinations of a turn, one after the other. Each right symbol has a place in them.
#![tactic(auto)]

ghost use Rattle.std.specs.Prelude.{◌≡◌, get_or, set, take};
ghost use Rattle.turns.specs.Moves.{Found, firsts_to, moved_to};
ghost use Rattle.turns.specs.Skips.{newest_to, all_below, skipped};

use candidates::next_candidate;
use grammar::SLOTS;

// What stands at a place, and 0 where there is none. Were the places known to be seven at most, the compiler would write the loops below
// out at length, and keep twenty more numbers on the stack.
fn at(numbers: &[u16], place: usize) -> u16
    ensures { result ≡ get_or numbers.now place 0 }
{
    numbers.get(place).copied().unwrap_or(0)
}

// Past the end nothing changes. By index: after a write through `get_mut` no more of the numbers would be known than how many they are.
fn put(numbers: &mut [u16], place: usize, entry: u16)
    ensures { numbers.new ≡ set numbers.old place entry }
{
    if place < numbers.len() {
        numbers[place] = entry;
    }
}

// Whether each of the first `count` right symbols has a candidate below `first`. The first of each is left in `firsts`, from the last place
// down as far as there is one: that is promised where the answer is false too, so it is no option.
pub fn first_candidates(
    symbols: &[u16],
    rights: &[u16; SLOTS],
    count: usize,
    first: u16,
    firsts: &mut [u16; SLOTS],
) -> bool
    ensures { Found (firsts_to symbols.now rights.now first count firsts.old) result firsts.new }
{
    let end = usize::from(first);
    for k in (0..count).rev() {
        match next_candidate(symbols, at(rights, k), 0, end) {
            Some(e) => put(firsts, k, e as u16),
            None => return false,
        }
    }
    true
}

// The next combination, whose last place changes fastest: of the first `count` right symbols the last that has a further candidate below
// `first` moves on to it, and those after it begin again at their firsts. Whether there was one; where there was none, all
// stand at their firsts, as is promised too.
pub fn next_combination(
    symbols: &[u16],
    rights: &[u16; SLOTS],
    firsts: &[u16; SLOTS],
    count: usize,
    first: u16,
    picked: &mut [u16; SLOTS],
) -> bool
    ensures { Found
        (moved_to symbols.now rights.now firsts.now first count picked.old)
        result picked.new }
{
    let end = usize::from(first);
    for k in (0..count).rev() {
        let from = usize::from(at(picked, k)) + 1;
        if let Some(e) = next_candidate(symbols, at(rights, k), from, end) {
            put(picked, k, e as u16);
            return true;
        }
        put(picked, k, at(firsts, k));
    }
    false
}

// A place that has a candidate from a number on, and the first of these.
#[derive(Clone, Copy, PartialEq, Eq)]
pub struct Newest {
    pub place: usize,
    pub entry: u16,
}

// Of the first `count` right symbols the last that has a candidate from `old` on and below `first`, if one has.
pub fn newest_place(
    symbols: &[u16],
    rights: &[u16; SLOTS],
    count: usize,
    old: u16,
    first: u16,
) -> Option<Newest>
    ensures { result ≡ newest_to symbols.now rights.now old first count }
{
    let from = usize::from(old);
    let end = usize::from(first);
    for place in (0..count).rev() {
        if let Some(e) = next_candidate(symbols, at(rights, place), from, end) {
            return Some(Newest {
                place,
                entry: e as u16,
            });
        }
    }
    None
}

fn all_below(numbers: &[u16], places: usize, old: u16) -> bool
    ensures { result ≡ all_below old (take places numbers.now) }
{
    numbers.iter().take(places).all(|number| *number < old)
}

// Where the first `count` numbers are all below `old`, the one at `place` goes on to an entry: the combinations up to there have been tried.
pub fn skip_old(numbers: &mut [u16; SLOTS], count: usize, old: u16, place: usize, entry: u16)
    ensures { numbers.new ≡ skipped old count place entry numbers.old }
{
    if all_below(numbers, count, old) {
        put(numbers, place, entry);
    }
}
