// What the rule and the code share.
#![tactic(auto)]

// A set of symbols has a bit for each of the 256 that there may be, in so many numbers.
pub const WORDS: usize = 4;
