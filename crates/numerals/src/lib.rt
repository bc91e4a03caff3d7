// Words read as numbers: a word is read as a natural number, a sample or the bits of an f64, or it is none. What
// is read is what the definitions in specs/ say, for all words.
#![tactic(auto)]

pub mod number;
