// Scaling back: levels become coefficients again. The contract speaks of the definition's one product and one shift.
// The code leaves out what factor and shift have in common, so that each product is one of two numbers of 16 bits.
#![tactic(auto)]

ghost use Rattle.std.specs.Prelude.{◌≡◌, map, ℕ, ◌+◌, ◌<◌, ◌≤◌, length, nat_abs, pos};
ghost use Rattle.integers.specs.Sum.{at};
ghost use Rattle.tables.specs.Scales.{back};
ghost use Rattle.decoding.specs.Scaling.{scaled_back};
ghost use Rattle.rescale.specs.Inner.Step.{stepped};

use parts::clip;
use refusals::ranges::{Qp, Side};
use tables::scales::back_scale;

// One level.
fn step(level: i16, times: i16, half: u32, down: u32) -> i16
    requires { (nat_abs times ≤ 18432) × (half ≤ 32) × (down ≤ 6) }
    ensures { result ≡ stepped times half down level }
{
    let z = i32::from(level) * i32::from(times) + half as i32;
    clip(z >> down)
}

// A part of a block, beside as many equal factors: the compiler then multiplies numbers of 16 bits.
fn part(block: &mut [i16], times: &[i16], half: u32, down: u32)
    requires block_in_bounds { (length block.old ≤ length times.now) × (half ≤ 32) × (down ≤ 6) }
    requires by_index { (i : ℕ) → i < length block.old → at times.now i ≡ at times.now 0 }
    requires times_bound { nat_abs (at times.now 0) ≤ 18432 }
    ensures { block.new ≡ map (stepped (at times.now 0) half down) block.old }
{
    for i in 0..block.len() {
        block[i] = step(block[i], times[i], half, down);
    }
}

// Part after part, and what is left behind them: the compiler knows how long a part is.
fn whole(block: &mut [i16], times: u32, half: u32, down: u32)
    requires { (times ≤ 18432) × (half ≤ 32) × (down ≤ 6) }
    ensures { block.new ≡ map (stepped (pos times) half down) block.old }
{
    let factors = [times as i16; 64];
    let parts = block.len() / 64;
    for k in 0..parts {
        let start = 64 * k;
        let end = start + 64;
        part(&mut block[start..end], &factors, half, down);
    }
    part(&mut block[64 * parts..], &factors, half, down);
}

// Every level of the block is scaled back.
pub fn rescale(block: &mut [i16], side: Side, qp: Qp)
    ensures { block.new ≡ map (scaled_back back side.log2 qp.qp) block.old }
{
    let s = back_scale(qp.qp);
    let p = qp.qp / 6;
    let l = side.log2 as u32;
    if l < p {
        whole(block, s << (p - 1 - l), 0, 0);
    } else {
        whole(block, s, 1 << (l - p), 1 + l - p);
    }
}
