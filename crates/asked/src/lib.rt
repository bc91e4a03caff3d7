// What `label` is asked: the words behind its name, and the picture that it reads, a PGM. What is wrong with them is an
// error, whose text is said once, where the program ends.
#![tactic(auto)]

mod given;
mod words;
mod wrong;

pub use given::{Picture, read_picture};
pub use words::{Asked, read_words};
pub use wrong::Wrong;
