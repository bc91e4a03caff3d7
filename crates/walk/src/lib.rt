// The walk and its cut: the block is walked along the scan, and cut where that is cheapest. The block left and its
// price are the definition's (specs/Walk.antt of `price`).
#![tactic(auto)]

ghost use Rattle.std.specs.Prelude.{◌≡◌, ◌≤◌, ◌*◌, length};
ghost use Rattle.price.specs.Walk.{written};
ghost use Rattle.weights.specs.Inner.Chosen.{Blank, ChosenBy};
ghost use Rattle.walk.specs.Inner.Cutting.{CutBehind};

use along::walk_places;
use scan::{Scan, put, scan_place};
use step::Walk;
use weights::kept::Kept;

// 0 at the places from `cut` to `end`.
fn cut_behind(levels: &mut [u16], scan: Scan, cut: usize, end: usize)
    requires { (length levels.old ≡ scan.w * scan.h) × (end ≤ scan.w * scan.h) }
    ensures { CutBehind scan.entry.w scan.entry.h cut end levels.old levels.new }
{
    for n in cut..end {
        put(levels, scan.block_place(scan_place(n)), 0);
    }
}

// The levels, by rows as what is kept, and what the block costs with them. The first place counts as after a nonzero
// level.
pub fn choose_levels(kept: Kept, levels: &mut [u16]) -> u64
    requires { Blank kept levels.old }
    ensures { ChosenBy written kept.entry levels.new result }
{
    let prices = kept.weights.prices;
    let first = Walk {
        base: kept.d + prices.coded,
        best: kept.d + prices.empty,
        cut: 0,
        prev: 1,
    };
    let walked = walk_places(kept, levels, first);
    let totals = walked.walk;
    cut_behind(levels, kept.scan, totals.cut, walked.end);
    totals.best
}
