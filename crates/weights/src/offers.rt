// The one offer of a place whose m is above 0: the cheaper of m and m - 1, which does not depend on the level before.
ghost use Rattle.std.specs.Prelude.{◌≤◌};
ghost use Rattle.price.specs.Level.{nearest};
ghost use Rattle.weights.specs.Inner.Prices.{Fine};
ghost use Rattle.weights.specs.Inner.Offers.{Offered};

use crate::Weights;

// A magnitude that a place may take, and what it costs but for its sign and run.
#[derive(Clone, Copy)]
pub struct Offer {
    pub level: u64,
    pub price: u64,
}

impl Weights {
    // Of the place l. m alone where it is 1. At a tie m is offered, or m - 1 where the lower goes first.
    pub fn offer(self, l: u64, lower_first: bool) -> Offer
        requires { Fine self.prices self.scale l × (1 ≤ nearest self.scale.shift l) }
        ensures { Offered lower_first self.prices self.scale l result }
    {
        let scale = self.scale;
        let prices = self.prices;
        let m = (l + scale.half) >> scale.shift;
        let c = scale.squared(l, m) + prices.level_at(m);
        let alone = m == 1;
        if alone {
            return Offer { level: m, price: c };
        }
        let n = m - 1;
        let d = scale.squared_below(l, n) + prices.level_at(n);
        if d < c || lower_first && d == c {
            return Offer { level: n, price: d };
        }
        Offer { level: m, price: c }
    }
}
