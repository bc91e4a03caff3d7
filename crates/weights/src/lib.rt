// What a place of a block is weighed by: the block's prices and scale, as code holds them, and the one offer of the
// place. Together they make the rule of the `price` crate; the walk and the search go by it.
#![tactic(auto)]

pub mod kept;
pub mod offers;
pub mod prices;

use prices::Prices;
use scaling::scale::Scale;

// What the places of a block are weighed by, worked out once a block.
#[derive(Clone, Copy)]
pub struct Weights {
    pub prices: Prices,
    pub scale: Scale,
}
