// What the levels of a block are chosen by: the walk and the search of the crates above both go by it.
ghost use Rattle.weights.specs.Inner.Choosing.{Choosable};

use crate::Weights;
use scan::Scan;

// The magnitudes that are kept of a block, by rows, and how many there are of them; the scan that they are met along; D
// of the whole block; and what its places are weighed by.
#[derive(Clone, Copy)]
pub struct Kept<'a> {
    pub magnitudes: &'a [u16],
    pub count: usize,
    pub scan: Scan<'a>,
    pub d: u64,
    pub weights: Weights,
    pub ghost choosable: { Choosable weights.prices weights.scale d scan.w scan.h magnitudes.now count },
}
