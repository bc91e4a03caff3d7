// The walk along the scan, before its cut: each place is passed or stepped at, and the level taken is put down. The
// totals and the levels are the definition's (specs/Walk.antt and specs/Inner/OnePass.antt of `price`).
#![tactic(auto)]

ghost use Rattle.std.specs.Prelude.{◌≡◌, cond, ◌<◌, ◌+◌};
ghost use Rattle.price.specs.Rule.{is_zero};
ghost use Rattle.weights.specs.Inner.Chosen.{Blank};
ghost use Rattle.along.specs.Inner.Walking.{Begins, WalkedOver};

use scan::{put, scan_place, value_at};
use step::Walk;
use weights::kept::Kept;

// The totals where the walk stops, and how many places come up to and with the last nonzero level.
#[derive(Clone, Copy)]
pub struct Walked {
    pub walk: Walk,
    pub end: usize,
}

// How many places come up to and with the last nonzero level, now that place n has taken `level`.
fn end_with(level: u64, n: usize, end: usize) -> usize
    requires { n < 4096 }
    ensures { result ≡ cond (is_zero level) end (n + 1) }
{
    if level == 0 { end } else { n + 1 }
}

// From the totals `first`. The walk stops behind the last place where something is kept: the others change neither the
// best price nor the cut.
pub fn walk_places(kept: Kept, levels: &mut [u16], first: Walk) -> Walked
    requires { Begins kept first × Blank kept levels.old }
    ensures { WalkedOver kept.entry first levels.new result }
{
    let weights = kept.weights;
    let mut totals = first;
    let mut left = kept.count;
    let mut end = 0;
    let mut n = 0;
    // Kept: the loop ends with what is left to step at, which a `for` over the places would test beside its own end.
    while 0 < left {
        let place = kept.scan.block_place(scan_place(n));
        let a = value_at(kept.magnitudes, place);
        if a == 0 {
            totals = totals.pass(weights.prices);
        } else {
            totals = totals.step(n, weights, a as u64 * weights.scale.q as u64);
            put(levels, place, totals.prev as u16);
            end = end_with(totals.prev, n, end);
            left -= 1;
        }
        n += 1;
    }
    Walked { walk: totals, end }
}
