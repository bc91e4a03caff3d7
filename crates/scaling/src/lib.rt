// The numbers of a side and a QP, worked out once a block: what makes L and m of a coefficient, the threshold of the
// skip, and the square of what is left of a coefficient. Each is the number that the `price` crate defines.
#![tactic(auto)]

pub mod errors;
pub mod scale;
