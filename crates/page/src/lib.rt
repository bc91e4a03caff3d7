// What the page shows of the pictures, as text: a block's samples as the camera saw them beside those shown, its levels
// by rows with their marks, the two whole pictures as greys, and the picture shown as a PGM. A block's tally is counted
// by what became of its levels.
#![tactic(auto)]

mod block;
mod whole;

pub use block::{Levels, Samples};
pub use whole::{Greys, Pgm};
