// What is read off the coefficients of a block before it is coded: magnitudes, the largest of them, whether the block
// is walked, and D.
#![tactic(auto)]

pub mod distortion;
pub mod skip;
