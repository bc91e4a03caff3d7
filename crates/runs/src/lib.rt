// The levels of a block as a run list: a symbol for each level that is not 0, in scan order. specs/ has the symbols of
// a block, how one is packed in a number, what a list has wrong, and the two calls; proofs/ that writing and reading
// undo each other. There is no function here: `symbols` has the code.
#![tactic(auto)]

// A level that is not 0: the zeros before it, back to the one before or to the block's beginning; its magnitude and
// its sign; and whether none comes behind it.
#[derive(Clone, Copy)]
pub struct Symbol {
    pub run: u32,
    pub magnitude: u32,
    pub negative: bool,
    pub last: bool,
}
