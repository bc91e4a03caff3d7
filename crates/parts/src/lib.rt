// The second stage of the inverse transform, where its sums may need more than 32 bits: what the first stage leaves is
// cut into a high and a low part of 16 bits each, and behind the stage the two sums are joined, with the one rounding
// and the clip.
#![tactic(auto)]

ghost use Rattle.std.specs.Prelude.{◌≡◌, ℕ, ◌<◌, ◌≤◌, length, nat_abs};
ghost use Rattle.integers.specs.Sum.{at};
ghost use Rattle.integers.specs.Floor.{rounded};
ghost use Rattle.integers.specs.Clip.{clipped};
ghost use Rattle.parts.specs.Inner.Parts.{high_of, low_of, whole};

pub fn high(x: &[i32], hi: &mut [i16])
    requires hi_len { length hi.old ≡ length x.now }
    requires by_index { (i : ℕ) → i < length x.now → nat_abs (at x.now i) ≤ 61079552 }
    ensures { (i : ℕ) → i < length x.now
        → at hi.new i ≡ high_of (at x.now i) }
{
    for i in 0..x.len() {
        hi[i] = (x[i] >> 12) as i16;
    }
}

pub fn low(x: &[i32], lo: &mut [i16])
    requires lo_len { length lo.old ≡ length x.now }
    requires by_index { (i : ℕ) → i < length x.now → nat_abs (at x.now i) ≤ 61079552 }
    ensures { (i : ℕ) → i < length x.now
        → at lo.new i ≡ low_of (at x.now i) }
{
    for i in 0..x.len() {
        lo[i] = (x[i] - 4096 * (x[i] >> 12)) as i16;
    }
}

// The nearest number that 16 bits can hold.
pub fn clip(z: i32) -> i16
    ensures { result ≡ clipped z }
{
    z.clamp(-32768, 32767) as i16
}

// The residuals by the sums p of the high parts and q of the low ones.
pub fn join(p: &[i32], q: &[i32], block: &mut [i16])
    requires q_len { (length q.now ≡ length p.now) × (length block.old ≡ length p.now) }
    requires by_index { (i : ℕ) → i < length p.now → (nat_abs (at p.now i) ≤ 27795968)
        × (nat_abs (at q.now i) ≤ 7633080) }
    ensures { (i : ℕ) → i < length p.now → at block.new i
        ≡ clipped (rounded (whole (at p.now i) (at q.now i)) 17) }
{
    for i in 0..p.len() {
        block[i] = clip((p[i] + ((q[i] + 65536) >> 12)) >> 5);
    }
}
