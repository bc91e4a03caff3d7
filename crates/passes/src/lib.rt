// The two passes of the search: back along the scan with the least price of what is still to come, after a 0 and after
// a nonzero level, noting what to take at each place; then forth, reading it off. What is noted and what is read off
// are the search's (specs/Inner/Search.antt of `price`).
#![tactic(auto)]

ghost use Rattle.std.specs.Prelude.{◌≡◌, ◌*◌, ◌≤◌, length};
ghost use Rattle.weights.specs.Inner.Places.{Cleared};
ghost use Rattle.passes.specs.Inner.Passes.{Ends, Known, Decided, taken_after, ReadOff};

use ahead::{Ahead, Taken};
use scan::{Scan, put, scan_place, value_at};
use weights::kept::Kept;

// The least price where there is none: 2^63, which no price reaches.
const NO_PRICE: u64 = 9223372036854775808;

// What a place takes that is not met yet, and one where nothing is kept: its 0 goes on, as nearly every place does.
pub const NOTHING: Taken = Taken {
    after_zero: 0,
    after_level: 0,
    goes_on: false,
};

const PASSED: Taken = Taken {
    goes_on: true,
    ..NOTHING
};

// How many places come up to and with the last one where something is kept.
pub fn last_place(kept: Kept) -> usize
    ensures { Ends kept.entry result }
{
    let mut left = kept.count;
    let mut n = 0;
    // Kept: the loop ends with what is left to find, which a `for` over the places would test beside its own end.
    while 0 < left {
        let place = kept.scan.block_place(scan_place(n));
        if value_at(kept.magnitudes, place) != 0 {
            left -= 1;
        }
        n += 1;
    }
    n
}

// Back from `end`, with what each place takes.
pub fn look_back(kept: Kept, end: usize, taken: &mut [Taken]) -> Ahead
    requires { Ends kept end × (length taken.old ≡ kept.scan.w * kept.scan.h) }
    ensures { Known kept.entry 0 result × Decided kept.entry 0 end taken.new }
{
    let weights = kept.weights;
    let mut ahead = Ahead {
        zero: NO_PRICE,
        level: NO_PRICE,
        rest: 0,
    };
    for n in (0..end).rev() {
        let a = value_at(kept.magnitudes, kept.scan.block_place(scan_place(n)));
        if a == 0 {
            ahead = ahead.pass(weights.prices);
            taken[n] = PASSED;
        } else {
            let weighed = ahead.weigh(weights, a as u64 * weights.scale.q as u64);
            ahead = weighed.ahead;
            taken[n] = weighed.taken;
        }
    }
    ahead
}

// The magnitude that a place takes after the level `prev`.
fn after(taken: Taken, prev: u16) -> u16
    ensures { result ≡ taken_after taken prev }
{
    if prev == 0 {
        taken.after_zero
    } else {
        taken.after_level
    }
}

// The magnitudes taken, from the first place on until one is the last: those of every block that is so decided.
pub fn read_off(scan: Scan, end: usize, taken: &[Taken], levels: &mut [u16])
    requires rooms { (end ≤ scan.w * scan.h) × (length taken.now ≡ scan.w * scan.h)
        × (length levels.old ≡ scan.w * scan.h) }
    requires cleared { Cleared levels.old }
    ensures { ReadOff scan.entry.w scan.entry.h end taken.now levels.new }
{
    let mut prev: u16 = 1;
    for n in 0..end {
        let here = taken[n];
        let a = after(here, prev);
        put(levels, scan.block_place(scan_place(n)), a);
        if !here.goes_on && a != 0 {
            return;
        }
        prev = a;
    }
}
