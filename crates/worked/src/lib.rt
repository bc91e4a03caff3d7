// The paper's numbers, worked out over the definitions of the calls: P1 and P3 to P12 as one theorem
// (proofs/Numbers.antt). There is no code. The numbers of side 32 take some seconds each, so they stand in a crate of
// their own that nothing else waits for.
#![tactic(auto)]
