// What a viewer does with a block, defined: levels are scaled back to coefficients, and the inverse transform makes
// residuals of them. specs/ has both calls as functions of all their inputs, proofs/ what is promised of them; there is
// no code here.
#![tactic(auto)]
