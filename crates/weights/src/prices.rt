// The prices of a block, worked out once by the `contexts` crate: the cost tables with lambda multiplied in.
ghost use Rattle.std.specs.Prelude.{◌≡◌, ◌≤◌, ◌*◌, ◌^◌};
ghost use Rattle.price.specs.Rule.{is_zero};
ghost use Rattle.weights.specs.Inner.Modest.{ModestNumbers};

// Of two that differ in their last letter the first is after a nonzero level, the second after a 0. zero: a 0; head:
// the sign and the run of a level; one, two, each: a level of 1, of 2, and what each one more adds.
#[derive(Clone, Copy)]
pub struct Prices {
    pub zero: u64,
    pub zeros: u64,
    pub head: u64,
    pub heads: u64,
    pub one: u64,
    pub two: u64,
    pub each: u64,
    pub more: u64,
    pub last: u64,
    pub empty: u64,
    pub coded: u64,
    pub ghost modest: { ModestNumbers zero zeros head heads one two more last empty coded },
}

impl Prices {
    ghost use Rattle.weights.specs.Inner.Prices.{zero_price, head_price, Priced};

    // Of a 0 after the level `prev`.
    pub fn zero_at(self, prev: u64) -> u64
        ensures { (result ≡ zero_price self (is_zero prev)) × (result ≤ 2 ^ 48) }
    {
        if prev == 0 { self.zeros } else { self.zero }
    }

    // Of the sign and the run of a level after `prev`.
    pub fn head_at(self, prev: u64) -> u64
        ensures { (result ≡ head_price self (is_zero prev)) × (result ≤ 2 ^ 49) }
    {
        if prev == 0 { self.heads } else { self.head }
    }

    // Of the magnitude itself, 1 and more.
    pub fn level_at(self, a: u64) -> u64
        requires { (1 ≤ a) × (a * self.each ≤ 2 ^ 61) }
        ensures { Priced self a result }
    {
        if a == 1 {
            self.one
        } else {
            self.two + (a - 2) * self.each
        }
    }
}
