// One place of the search: passed where its m is 0, else weighed. What a magnitude costs here is added to the least
// price of what it leaves to come.
#![tactic(auto)]

ghost use Rattle.std.specs.Prelude.{◌≡◌, ◌+◌, ◌^◌, ◌≤◌};
ghost use Rattle.ahead.specs.Inner.Ahead.{ChosenOf, passed_by, Ready, WeighedSmall};

use weights::Weights;
use weights::prices::Prices;

// What is known from a place on. zero, level: the least price of what has a nonzero level still to come, after a 0 and
// after a nonzero level, 2^63 and more where there is none; rest: the uncoded squares.
#[derive(Clone, Copy)]
pub struct Ahead {
    pub zero: u64,
    pub level: u64,
    pub rest: u64,
}

// What a place takes: the magnitudes after a 0 and after a nonzero level, and whether a nonzero one goes on.
#[derive(Clone, Copy)]
pub struct Taken {
    pub after_zero: u16,
    pub after_level: u16,
    pub goes_on: bool,
}

// A place weighed: what is known from it on, and what it takes.
#[derive(Clone, Copy)]
pub struct Weighed {
    pub ahead: Ahead,
    pub taken: Taken,
}

// The magnitude that a place takes, and the least price with it.
#[derive(Clone, Copy)]
pub struct Choice {
    pub level: u64,
    pub price: u64,
}

// 0, unless the magnitude a is strictly cheaper.
fn choose(zero: u64, level: u64, a: u64) -> Choice
    ensures { ChosenOf zero level a result }
{
    if level < zero {
        Choice {
            level: a,
            price: level,
        }
    } else {
        Choice {
            level: 0,
            price: zero,
        }
    }
}

impl Ahead {
    // A place with m = 0.
    pub fn pass(self, prices: Prices) -> Ahead
        requires { self.zero ≤ 2 ^ 63 + 2 ^ 61 }
        ensures { result ≡ passed_by prices self }
    {
        Ahead {
            zero: self.zero + prices.zeros,
            level: self.zero + prices.zero,
            ..self
        }
    }

    // A place whose m is above 0. A nonzero level is the last one, unless going on is strictly cheaper.
    pub fn weigh(self, weights: Weights, l: u64) -> Weighed
        requires { Ready weights.prices weights.scale self l }
        ensures { WeighedSmall weights.prices weights.scale self l result }
    {
        let prices = weights.prices;
        let offer = weights.offer(l, true);
        let d = weights.scale.squared_below(l, 0);
        let ending = self.rest + prices.last;
        let going = self.level + prices.more;
        let goes_on = going < ending;
        let behind = if goes_on { going } else { ending };
        let zero = self.zero + d;
        let level = behind + offer.price;
        let z = choose(zero + prices.zeros, level + prices.heads, offer.level);
        let n = choose(zero + prices.zero, level + prices.head, offer.level);
        Weighed {
            ahead: Ahead {
                zero: z.price,
                level: n.price,
                rest: self.rest + d,
            },
            taken: Taken {
                after_zero: z.level as u16,
                after_level: n.level as u16,
                goes_on,
            },
        }
    }
}
