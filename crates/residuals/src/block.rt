// The whole block: the first stage over its rows, its sums split into two numbers of 16 bits each, the second stage
// over the columns of either, and both joined by the one rounding and the clip. A block with a side of 4 has that side
// last, in 64 bits, and nothing is split.
ghost use Rattle.std.specs.Prelude.{◌≡◌, ◌*◌, ◌^◌, ◌≤◌, length, pos, nat_abs, ◌+ℤ◌, ◌-ℤ◌, ◌*ℤ◌};
ghost use Rattle.integers.specs.Clip.{clipped};
ghost use Rattle.integers.specs.Floor.{rounded};
ghost use Rattle.decoding.specs.Inverse.{residuals};

use fours::{last_columns, last_rows, turn};
use parts::{high, join, low};
use refusals::ranges::Side;
use unstage::unstage;

// x and y are rooms for sums, lower one for the lower parts; the higher ones stand in the block.
fn both_stages(
    block: &mut [i16],
    x: &mut [i32],
    y: &mut [i32],
    lower: &mut [i16],
    width: Side,
    height: Side,
)
    requires { (length block.old ≡ 2 ^ width.log2 * 2 ^ height.log2) × (length x.old ≡ length block.old)
        × (length y.old ≡ length block.old) × (length lower.old ≡ length block.old) }
    ensures { block.new ≡ residuals block.old width.log2 height.log2 }
{
    let w = width.length();
    let h = height.length();
    unstage(width, h, block, x);
    high(x, block);
    low(x, lower);
    unstage(height, w, block, x);
    unstage(height, w, lower, y);
    join(x, y, block);
}

// The sum and the difference of two coefficients.
fn plus(p: i16, q: i16) -> i32
    ensures { (result ≡ p +ℤ q) × (nat_abs result ≤ 65536) }
{
    i32::from(p) + i32::from(q)
}

fn minus(p: i16, q: i16) -> i32
    ensures { (result ≡ p -ℤ q) × (nat_abs result ≤ 65536) }
{
    i32::from(p) - i32::from(q)
}

// 4096 times z, rounded by the 17 bits: 12 of them have nothing to round.
fn settle(z: i32) -> i16
    requires { nat_abs z ≤ 131072 }
    ensures { result ≡ clipped (rounded (pos 4096 *ℤ z) 17) }
{
    ((z + 16) >> 5) as i16
}

fn near(p: i32, q: i32) -> i16
    requires { (nat_abs p ≤ 65536) × (nat_abs q ≤ 65536) }
    ensures { result ≡ clipped (rounded (pos 4096 *ℤ (p +ℤ q)) 17) }
{
    settle(p + q)
}

fn far(p: i32, q: i32) -> i16
    requires { (nat_abs p ≤ 65536) × (nat_abs q ≤ 65536) }
    ensures { result ≡ clipped (rounded (pos 4096 *ℤ (p -ℤ q)) 17) }
{
    settle(p - q)
}

// A block of 2 by 2, whose double sums are 4096 times sums of its four coefficients with their signs.
fn restore_two(block: &mut [i16])
    requires { length block.old ≡ 4 }
    ensures { block.new ≡ residuals block.old 1 1 }
{
    let a = block[0];
    let b = block[1];
    let c = block[2];
    let d = block[3];
    let p = plus(a, b);
    let q = minus(a, b);
    let r = plus(c, d);
    let s = minus(c, d);
    block[0] = near(p, r);
    block[1] = near(q, s);
    block[2] = far(p, r);
    block[3] = far(q, s);
}

// A block 4 high: the first stage over its rows, the last over its columns.
fn four_high(block: &mut [i16], x: &mut [i32], width: Side)
    requires { (length block.old ≡ 2 ^ width.log2 * 4) × (length x.old ≡ length block.old) }
    ensures { block.new ≡ residuals block.old width.log2 2 }
{
    let w = width.length();
    unstage(width, 4, block, x);
    last_columns(w, x, block);
}

// A block 4 wide: the first stage over its columns, which are laid out one after the other, the last over its rows.
fn four_wide(block: &mut [i16], x: &mut [i32], columns: &mut [i16], height: Side)
    requires { (length block.old ≡ 4 * 2 ^ height.log2) × (length x.old ≡ length block.old)
        × (length columns.old ≡ length block.old) }
    ensures { block.new ≡ residuals block.old 2 height.log2 }
{
    let h = height.length();
    turn(block, h, columns);
    unstage(height, 4, columns, x);
    last_rows(h, x, block);
}

// A block 4 high in a room of N places.
fn high_in_rooms<const N: usize>(block: &mut [i16], width: Side)
    requires { (N ≤ 1024) × (length block.old ≡ 2 ^ width.log2 * 4) × (length block.old ≤ N) }
    ensures { block.new ≡ residuals block.old width.log2 2 }
{
    let n = block.len();
    let mut x = [0i32; N];
    four_high(block, &mut x[..n], width);
}

#[tactic(auto, using(crate::proofs::Rooms::side_small))]
fn restore_high(block: &mut [i16], width: Side)
    requires { length block.old ≡ 2 ^ width.log2 * 4 }
    ensures { block.new ≡ residuals block.old width.log2 2 }
{
    if block.len() <= 32 {
        high_in_rooms::<32>(block, width);
    } else {
        high_in_rooms::<128>(block, width);
    }
}

// A block 4 wide in rooms of N places.
fn wide_in_rooms<const N: usize>(block: &mut [i16], height: Side)
    requires { (N ≤ 1024) × (length block.old ≡ 4 * 2 ^ height.log2) × (length block.old ≤ N) }
    ensures { block.new ≡ residuals block.old 2 height.log2 }
{
    let n = block.len();
    let mut x = [0i32; N];
    let mut columns = [0i16; N];
    four_wide(block, &mut x[..n], &mut columns[..n], height);
}

#[tactic(auto, using(crate::proofs::Rooms::side_small))]
fn restore_wide(block: &mut [i16], height: Side)
    requires { length block.old ≡ 4 * 2 ^ height.log2 }
    ensures { block.new ≡ residuals block.old 2 height.log2 }
{
    if block.len() <= 32 {
        wide_in_rooms::<32>(block, height);
    } else {
        wide_in_rooms::<128>(block, height);
    }
}

// Any block in rooms of N places.
fn any_in_rooms<const N: usize>(block: &mut [i16], width: Side, height: Side)
    requires { (N ≤ 1024) × (length block.old ≡ 2 ^ width.log2 * 2 ^ height.log2) × (length block.old ≤ N) }
    ensures { block.new ≡ residuals block.old width.log2 height.log2 }
{
    let n = block.len();
    let mut x = [0i32; N];
    let mut y = [0i32; N];
    let mut lower = [0i16; N];
    both_stages(
        block,
        &mut x[..n],
        &mut y[..n],
        &mut lower[..n],
        width,
        height,
    );
}

// The rooms are small where the block is small.
#[tactic(auto, using(stages::proofs::Sizes::at_most_1024))]
fn restore_any(block: &mut [i16], width: Side, height: Side)
    requires { length block.old ≡ 2 ^ width.log2 * 2 ^ height.log2 }
    ensures { block.new ≡ residuals block.old width.log2 height.log2 }
{
    match block.len() {
        0..=16 => any_in_rooms::<16>(block, width, height),
        17..=64 => any_in_rooms::<64>(block, width, height),
        65..=256 => any_in_rooms::<256>(block, width, height),
        _ => any_in_rooms::<1024>(block, width, height),
    }
}

// The residuals of the block in place of its coefficients.
pub fn restore(block: &mut [i16], width: Side, height: Side)
    requires { length block.old ≡ 2 ^ width.log2 * 2 ^ height.log2 }
    ensures { block.new ≡ residuals block.old width.log2 height.log2 }
{
    match (width.log2, height.log2) {
        (1, 1) => restore_two(block),
        (_, 2) => restore_high(block, width),
        (2, _) => restore_wide(block, height),
        _ => restore_any(block, width, height),
    }
}
