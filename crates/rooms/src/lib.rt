// The rooms that a block is coded in, of 64, 256 or 1,024 places by its side. The block left, its count and its price
// are the definition's, as `levels` has them.
#![tactic(auto)]

ghost use Rattle.std.specs.Prelude.{◌≤◌, ◌^◌, length};
ghost use Rattle.levels.specs.Inner.Levels.{Codable, CodedAs};

use coding::{Coded, Mode};
use levels::code_in;
use refusals::ranges::Side;
use weights::Weights;

// In rooms of N places, no less than the block has: to clear them takes time.
fn code_in_rooms<const N: usize>(
    block: &mut [i16],
    side: Side,
    weights: Weights,
    d: u64,
    mode: Mode,
) -> Coded
    requires { (length block.old ≤ N) × (N ≤ 1024)
        × Codable weights.prices weights.scale (2 ^ side.log2) (2 ^ side.log2) block.old d }
    ensures { CodedAs mode weights.prices weights.scale (2 ^ side.log2) (2 ^ side.log2) block.old block.new result }
{
    let n = block.len();
    let mut scan = [0u16; N];
    let mut kept = [0u16; N];
    let mut levels = [0u16; N];
    code_in(
        block,
        side,
        weights,
        d,
        mode,
        &mut scan[..n],
        &mut kept[..n],
        &mut levels[..n],
    )
}

pub fn code_levels(block: &mut [i16], side: Side, weights: Weights, d: u64, mode: Mode) -> Coded
    requires { Codable weights.prices weights.scale (2 ^ side.log2) (2 ^ side.log2) block.old d }
    ensures { CodedAs mode weights.prices weights.scale (2 ^ side.log2) (2 ^ side.log2) block.old block.new result }
{
    match side.log2 {
        1..=3 => code_in_rooms::<64>(block, side, weights, d, mode),
        4 => code_in_rooms::<256>(block, side, weights, d, mode),
        _ => code_in_rooms::<1024>(block, side, weights, d, mode),
    }
}
