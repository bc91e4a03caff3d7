// The two ends of the transform: residuals of 16 bits become numbers of 32 that the stages can add up, and the sums
// become coefficients of 16 bits, by the one rounding that there is. The contracts say how large a sum may be for that.
#![tactic(auto)]

ghost use Rattle.std.specs.Prelude.{◌≡◌, ℕ, ◌*◌, ◌^◌, ◌<◌, ◌≤◌, length, nat_abs};
ghost use Rattle.integers.specs.Sum.{at};
ghost use Rattle.integers.specs.Floor.{rounded};

pub fn widen(block: &[i16], wide: &mut [i32])
    requires { length wide.old ≡ length block.now }
    ensures { (i : ℕ) → i < length block.now
        → at wide.new i ≡ at block.now i }
{
    for (i, v) in block.iter().enumerate() {
        wide[i] = i32::from(*v);
    }
}

// The sums shifted right, a half of the last unit added first.
pub fn settle(sums: &[i32], shift: u32, block: &mut [i16])
    requires block_len { (length block.old ≡ length sums.now) × (1 ≤ shift) × (shift ≤ 16) }
    requires by_index { (i : ℕ) → i < length sums.now → nat_abs (at sums.now i) ≤ 32736 * 2 ^ shift }
    ensures { (i : ℕ) → i < length sums.now
        → at block.new i ≡ rounded (at sums.now i) shift }
{
    let half = 1i32 << (shift - 1);
    for (i, z) in sums.iter().enumerate() {
        block[i] = ((*z + half) >> shift) as i16;
    }
}
