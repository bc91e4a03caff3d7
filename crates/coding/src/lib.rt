// What becomes of the coefficients of a block: the inputs of the quantiser's call as one value, and in specs/ what the
// call answers and leaves, as functions of them. proofs/ has what is promised of it. There is no function here:
// `quantise` has the code, and its contracts are equations with these definitions.
#![tactic(auto)]

use price::Settings;
use refusals::Component;

// Which block is written: document 01's, or the cheapest of all whose magnitudes are 0, m or m - 1.
#[derive(Clone, Copy)]
pub enum Mode {
    Walk,
    Least,
}

// All inputs of a call but what it is lent, which are its buffer and the cost tables: log2 of the block's side, the
// component and its settings, whether the slice is intra, whether the block is intra-coded, and which block is
// written.
#[derive(Clone, Copy)]
pub struct Coding {
    pub log2: usize,
    pub component: Component,
    pub settings: Settings,
    pub intra_slice: bool,
    pub intra_coded: bool,
    pub mode: Mode,
}

// What the call answers: the count of nonzero levels, and the price.
#[derive(Clone, Copy)]
pub struct Coded {
    pub count: u32,
    pub price: u64,
}
