// The way there and back: what the inverse transform returns of the residuals whose coefficients the transform left, as
// theorems over the definitions of the two calls (proofs/). There is no code.
#![tactic(auto)]
