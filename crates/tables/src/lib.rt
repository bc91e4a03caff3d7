// The tables: the matrices of the transform and the scales of the quantiser. Each is listed as data, and each contract
// speaks of the rule that the data follow, never of the data: one computed test for each table stands between the two.
#![tactic(auto)]

mod matrices;
pub mod matrix;
pub mod number;
pub mod odd_rows;
pub mod scales;
