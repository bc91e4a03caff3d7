// One place of the walk: passed where its m is 0, else one offer, m or m - 1, is weighed against 0. The totals are what
// the walk's definition steps to (specs/Inner/OnePass.antt of `price`).
#![tactic(auto)]

ghost use Rattle.std.specs.Prelude.{◌≡◌, ◌≤◌, ◌^◌};
ghost use Rattle.price.specs.Inner.OnePass.{step};
ghost use Rattle.weights.specs.Inner.Prices.{rule_by};
ghost use Rattle.step.specs.Inner.Totals.{Ready, totals_of, passed};

use weights::Weights;
use weights::prices::Prices;

// The running totals. base: the coded flag, what is walked with its flags, and the uncoded squares behind it; best and
// cut: the least price of a cut so far, and how many places it keeps; prev: the level before.
#[derive(Clone, Copy)]
pub struct Walk {
    pub base: u64,
    pub best: u64,
    pub cut: usize,
    pub prev: u64,
}

impl Walk {
    // A place with m = 0.
    pub fn pass(self, prices: Prices) -> Walk
        requires { self.base ≤ 2 ^ 62 }
        ensures { totals_of result ≡ passed prices (totals_of self) }
    {
        Walk {
            base: self.base + prices.zero_at(self.prev),
            prev: 0,
            ..self
        }
    }

    // Place n, whose m is above 0.
    pub fn step(self, n: usize, weights: Weights, l: u64) -> Walk
        requires { Ready weights.prices weights.scale self n l }
        ensures { totals_of result ≡ step (rule_by weights.prices weights.scale) n (totals_of self) l }
    {
        let prices = weights.prices;
        let offer = weights.offer(l, false);
        let d = weights.scale.squared_below(l, 0);
        let zero = prices.zero_at(self.prev);
        let c = offer.price + prices.head_at(self.prev);
        if d + zero <= c {
            return Walk {
                base: self.base + zero,
                prev: 0,
                ..self
            };
        }
        let b = self.base - d + c;
        let ended = b + prices.last;
        let on = Walk {
            base: b + prices.more,
            prev: offer.level,
            ..self
        };
        if ended < self.best {
            Walk {
                best: ended,
                cut: n + 1,
                ..on
            }
        } else {
            on
        }
    }
}
