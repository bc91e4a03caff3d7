// The call over the three components of a block: what it is asked, and what it answers. Which answer that is, and what
// the buffer then holds, is said in specs/; what follows from it in proofs/. The code of the call is another crate's.
#![tactic(auto)]

use coding::Mode;
use price::Settings;
use refusals::Three;

// All inputs of a call but what it is lent, which are its buffer and the cost tables: log2 of luma's side, each
// component's settings, the run mask, whether the slice is intra, whether the block is intra-coded, and which blocks
// are written.
#[derive(Clone, Copy)]
pub struct Request {
    pub log2_luma: usize,
    pub settings: Three<Settings>,
    pub run: u32,
    pub intra_slice: bool,
    pub intra_coded: bool,
    pub mode: Mode,
}
