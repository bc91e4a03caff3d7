// The whole block, its samples known to be in range: both stages, and the rounding behind them.
ghost use Rattle.std.specs.Prelude.{◌≡◌, ℕ, ◌*◌, ◌^◌, ◌<◌, ◌≤◌, length, nat_abs};
ghost use Rattle.integers.specs.Sum.{at};
ghost use Rattle.transform.specs.Coefficients.{coefficients};

use halves::half_stage;
use refusals::ranges::Side;
use rounding::{settle, widen};
use stages::stage;

fn both_stages(block: &mut [i16], a: &mut [i32], b: &mut [i32], width: Side, height: Side)
    requires block_len { (length block.old ≡ 2 ^ width.log2 * 2 ^ height.log2) × (length a.old ≡ length block.old)
        × (length b.old ≡ length block.old) }
    requires by_index { (i : ℕ) → i < length block.old → nat_abs (at block.old i) ≤ 1023 }
    ensures { block.new ≡ coefficients block.old width.log2 height.log2 }
{
    widen(block, a);
    stage(width, height.length(), a, b);
    if width.log2 + height.log2 == 10 {
        half_stage(b, a);
        settle(a, 16, block);
    } else {
        stage(height, width.length(), b, a);
        settle(a, (7 + width.log2 + height.log2) as u32, block);
    }
}

// The same in rooms of N numbers.
fn in_rooms<const N: usize>(block: &mut [i16], width: Side, height: Side)
    requires rooms { (length block.old ≤ N) × (N ≤ 1024) }
    requires block_len { (length block.old ≡ 2 ^ width.log2 * 2 ^ height.log2)
        × ((i : ℕ) → i < length block.old → nat_abs (at block.old i) ≤ 1023) }
    ensures { block.new ≡ coefficients block.old width.log2 height.log2 }
{
    let n = block.len();
    let mut a = [0i32; N];
    let mut b = [0i32; N];
    both_stages(block, &mut a[..n], &mut b[..n], width, height);
}

// The coefficients of the block in place of its residuals. What a small block works in is small.
pub fn transform(block: &mut [i16], width: Side, height: Side)
    requires block_len { (length block.old ≡ 2 ^ width.log2 * 2 ^ height.log2)
        × ((i : ℕ) → i < length block.old → nat_abs (at block.old i) ≤ 1023) }
    ensures { block.new ≡ coefficients block.old width.log2 height.log2 }
{
    match block.len() {
        ..=16 => in_rooms::<16>(block, width, height),
        ..=64 => in_rooms::<64>(block, width, height),
        ..=256 => in_rooms::<256>(block, width, height),
        _ => in_rooms::<1024>(block, width, height),
    }
}
