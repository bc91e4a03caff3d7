// From the coefficients of a block to its levels, by rows: what is kept of them, the block that the mode writes of
// that, and the signs put back. The block left, its count and its price are the definition's (specs/Block.antt of
// `coding`).
#![tactic(auto)]

ghost use Rattle.std.specs.Prelude.{◌≤◌, ◌^◌};
ghost use Rattle.coding.specs.Block.{written_in};
ghost use Rattle.weights.specs.Inner.Chosen.{Blank, ChosenBy};
ghost use Rattle.levels.specs.Inner.Levels.{Lent, Codable, CodedAs};

use coding::{Coded, Mode};
use refusals::ranges::Side;
use scan::Scan;
use search::find_levels;
use signs::{keep, put_signs};
use walk::choose_levels;
use weights::Weights;
use weights::kept::Kept;

// The magnitudes that the mode writes, by rows, and what they cost.
fn choose(kept: Kept, levels: &mut [u16], mode: Mode) -> u64
    requires { Blank kept levels.old }
    ensures { ChosenBy (written_in mode) kept.entry levels.new result }
{
    match mode {
        Mode::Walk => choose_levels(kept, levels),
        Mode::Least => find_levels(kept, levels),
    }
}

// The levels of a block whose D is d, and what they cost, worked out in rooms that have the block's length.
pub fn code_in(
    block: &mut [i16],
    side: Side,
    weights: Weights,
    d: u64,
    mode: Mode,
    scan: &mut [u16],
    kept: &mut [u16],
    levels: &mut [u16],
) -> Coded
    requires { Codable weights.prices weights.scale (2 ^ side.log2) (2 ^ side.log2) block.old d
        × Lent block.old scan.old kept.old levels.old }
    ensures { CodedAs mode weights.prices weights.scale (2 ^ side.log2) (2 ^ side.log2) block.old block.new result }
{
    let scan = Scan::square(side, scan);
    let count = keep(block, kept, weights.scale);
    let all = Kept {
        magnitudes: kept,
        count,
        scan,
        d,
        weights,
    };
    let price = choose(all, levels, mode);
    let count = put_signs(block, levels);
    Coded { count, price }
}
