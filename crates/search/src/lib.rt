// The search for the cheapest block of all: the two passes of `passes`, and between them the choice of a coded block or
// the empty one. Its block and its price are the definition's (specs/Cheapest.antt of `price`).
#![tactic(auto)]

ghost use Rattle.std.specs.Prelude.{◌≡◌, ◌≤◌, ◌*◌, length};
ghost use Rattle.price.specs.Cheapest.{cheapest};
ghost use Rattle.weights.specs.Inner.Chosen.{Blank, ChosenBy};

use ahead::Taken;
use passes::{NOTHING, last_place, look_back, read_off};
use weights::kept::Kept;

// The cheapest block of what is kept, found in a room that has the block's length, and its price.
fn find_in(kept: Kept, levels: &mut [u16], taken: &mut [Taken]) -> u64
    requires { Blank kept levels.old × (length taken.old ≡ kept.scan.w * kept.scan.h) }
    ensures { ChosenBy cheapest kept.entry levels.new result }
{
    let prices = kept.weights.prices;
    let end = last_place(kept);
    let ahead = look_back(kept, end, taken);
    let coded = kept.d - ahead.rest + ahead.level + prices.coded;
    let empty = kept.d + prices.empty;
    if coded < empty {
        read_off(kept.scan, end, taken, levels);
        return coded;
    }
    empty
}

// In a room of N places, no less than the block has: to clear it takes time.
fn find_in_room<const N: usize>(kept: Kept, levels: &mut [u16]) -> u64
    requires { Blank kept levels.old × (kept.scan.w * kept.scan.h ≤ N) × (N ≤ 1024) }
    ensures { ChosenBy cheapest kept.entry levels.new result }
{
    let mut taken = [NOTHING; N];
    find_in(kept, levels, &mut taken[..kept.magnitudes.len()])
}

// The levels, by rows as what is kept, and what the block costs with them.
pub fn find_levels(kept: Kept, levels: &mut [u16]) -> u64
    requires { Blank kept levels.old }
    ensures { ChosenBy cheapest kept.entry levels.new result }
{
    match kept.magnitudes.len() {
        0..=64 => find_in_room::<64>(kept, levels),
        65..=256 => find_in_room::<256>(kept, levels),
        _ => find_in_room::<1024>(kept, levels),
    }
}
