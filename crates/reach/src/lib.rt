// How far plain rounding reaches: with every level at m no sample is off by more than a bound that side and QP give
// (specs/), so that heights of that bound are always met (proofs/). There is no code.
#![tactic(auto)]
