// The matrices of the transform, listed.
ghost use Rattle.std.specs.Prelude.{◌≡◌};
ghost use Rattle.tables.specs.Matrix.{five_matrices};

use crate::matrices::MATRICES;

// The listed numbers are the rule's. The butterflies read the odd rows, which stand beside them.
pub fn listed() -> [i8; 1364]
    ensures { result ≡ five_matrices }
{
    MATRICES
}
