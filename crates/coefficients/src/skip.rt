// Magnitudes of coefficients, and the quick skip: a part of the block at a time, by the part's largest magnitude.
ghost use Rattle.std.specs.Prelude.{◌≡◌, ◌≤◌, ◌<◌};
ghost use Rattle.coefficients.specs.Inner.Coefficients.{Largest, Reached};

pub fn largest(part: &[i16]) -> u32
    ensures { Largest part.now result }
{
    let mut top: u16 = 0;
    for c in part {
        top = top.max(c.unsigned_abs());
    }
    u32::from(top)
}

// The largest magnitude of a block that is skipped, as no L of it reaches the threshold: none of a block that is
// walked, where this stops at the first part that has one.
pub fn skipped_top(block: &[i16], q: u32, threshold: u64) -> Option<u32>
    requires { (q ≤ 32767) × (1 ≤ threshold) }
    ensures { Reached q threshold block.now result }
{
    let mut top: u32 = 0;
    for part in block.chunks(64) {
        top = top.max(largest(part));
        if threshold <= u64::from(top) * u64::from(q) {
            return None;
        }
    }
    Some(top)
}
