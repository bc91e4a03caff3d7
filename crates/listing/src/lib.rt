// The levels that the quantiser leaves, written as a run list: they are never refused, and the count that it answers is
// the number of symbols, as theorems over the definitions of the calls (proofs/). There is no code.
#![tactic(auto)]
