// The odd rows of the matrices, as the butterflies read them: of side 2h the first halves, column after column, so that
// one value meets the h entries of its column in a row. Taken once a call and lent.
ghost use Rattle.std.specs.Prelude.{◌≡◌, map};
ghost use Rattle.tables.specs.Inner.OddRows.{odd_rows};

use crate::matrices::{NARROW_2, NARROW_4, NARROW_8, NARROW_16, ODD_2, ODD_4, ODD_8, ODD_16};
use crate::number::Number;

// Those of the sides 4, 8, 16 and 32.
#[derive(Drop)]
pub struct OddRows<T: Number> {
    pub two: [T; 4],
    pub four: [T; 16],
    pub eight: [T; 64],
    pub sixteen: [T; 256],
    pub ghost twos: { map T.value two ≡ odd_rows 2 },
    pub ghost fours: { map T.value four ≡ odd_rows 4 },
    pub ghost eights: { map T.value eight ≡ odd_rows 8 },
    pub ghost sixteens: { map T.value sixteen ≡ odd_rows 16 },
}

// Kept: the same numbers in both widths. Over the narrow ones a line of 32 takes 484 instructions in place of 409.
const WIDE: OddRows<i32> = OddRows {
    two: ODD_2,
    four: ODD_4,
    eight: ODD_8,
    sixteen: ODD_16,
};

const NARROW: OddRows<i16> = OddRows {
    two: NARROW_2,
    four: NARROW_4,
    eight: NARROW_8,
    sixteen: NARROW_16,
};

// In 32 bits, for the transform.
#[tactic(auto, unfolding(crate::specs::Inner::OddRows::odd_rows))]
pub fn wide_rows() -> OddRows<i32> {
    WIDE
}

// In 16 bits, for its inverse.
#[tactic(auto, unfolding(crate::specs::Inner::OddRows::odd_rows))]
pub fn narrow_rows() -> OddRows<i16> {
    NARROW
}
