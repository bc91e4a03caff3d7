// The price of a finished block, worked out from its magnitudes in scan order alone, by document 01's definition
// (specs/Price.antt of `price`). Levels put back can cost more than 64 bits hold: the price is held at 2^62.
#![tactic(auto)]

ghost use Rattle.std.specs.Prelude.{◌≡◌, false, ℕ, ◌+◌, ◌*◌, ◌^◌, ◌≤◌, length, get_or, take, drop};
ghost use Rattle.integers.specs.Sum.{over, on_ℕ};
ghost use Rattle.scan.specs.Scan.{most_places};
ghost use Rattle.price.specs.Level.{nearest};
ghost use Rattle.price.specs.Rule.{is_zero, cost};
ghost use Rattle.price.specs.Price.{size, nonzeros, costs, price};
ghost use Rattle.weights.specs.Inner.Prices.{Fine, rule_by};
ghost use Rattle.finished.specs.Inner.Finished.{held, places_of, uncoded_at, flags_to, Priceable};

use scaling::scale::Scale;
use weights::Weights;
use weights::prices::Prices;

// How many places come up to and with the last nonzero level.
fn size_of(levels: &[u16]) -> usize
    ensures { (result ≡ size levels.now) × (result ≤ length levels.now) }
{
    let mut end = 0;
    for (i, level) in levels.iter().enumerate() {
        if *level != 0 {
            end = i + 1;
        }
    }
    end
}

// How many of the levels are not 0.
fn count_of(levels: &[u16]) -> u64
    requires { length levels.now ≤ most_places }
    ensures { (result ≡ nonzeros levels.now) × (result ≤ most_places) }
{
    let mut count: u16 = 0;
    for level in levels {
        if *level != 0 {
            count += 1;
        }
    }
    u64::from(count)
}

// The sum, held at 2^62.
fn add(total: u64, x: u64) -> u64
    requires { (total ≤ 2 ^ 62) × (x ≤ 2 ^ 62) }
    ensures { (result ≡ held (total + x)) × (result ≤ 2 ^ 62) }
{
    (total + x).min(4611686018427387904)
}

// The cost of magnitude a at the place l, after the level `prev`.
fn cost_at(l: u64, a: u64, prev: u64, weights: Weights) -> u64
    requires { Fine weights.prices weights.scale l × (a ≤ nearest weights.scale.shift l) }
    ensures { (result ≡ cost (rule_by weights.prices weights.scale) (is_zero prev) l a) × (result ≤ 2 ^ 62) }
{
    let prices = weights.prices;
    let d = weights.scale.squared(l, a);
    if a == 0 {
        d + prices.zero_at(prev)
    } else {
        d + prices.level_at(a) + prices.head_at(prev)
    }
}

// The costs of the first n levels. The first place counts as after a nonzero level.
fn costs_of(levels: &[u16], cs: &[u16], n: usize, weights: Weights) -> u64
    requires { Priceable weights.prices weights.scale levels.now cs.now × (n ≤ length levels.now) }
    ensures { (result ≡ held (costs (rule_by weights.prices weights.scale) false (take n levels.now)
        (places_of weights.scale cs.now)))
        × (result ≤ 2 ^ 62) }
{
    let q = u64::from(weights.scale.q);
    let mut total = 0;
    let mut prev = 1;
    for (level, c) in levels[..n].iter().zip(cs) {
        let a = u64::from(*level);
        total = add(total, cost_at(u64::from(*c) * q, a, prev, weights));
        prev = a;
    }
    total
}

// D of places, none of which is coded.
fn uncoded_of(cs: &[u16], scale: Scale) -> u64
    requires { (k : ℕ) → get_or cs.now k 0 * scale.q * scale.error ≤ 2 ^ 49 }
    ensures { (result ≡ held (over on_ℕ (uncoded_at scale) cs.now)) × (result ≤ 2 ^ 62) }
{
    let q = u64::from(scale.q);
    let mut total = 0;
    for c in cs {
        total = add(total, scale.squared_below(u64::from(*c) * q, 0));
    }
    total
}

// The flags of a coded block whose size is n.
fn flags_of(levels: &[u16], n: usize, prices: Prices) -> u64
    requires { (1 ≤ n) × (n ≤ length levels.now) × (length levels.now ≤ most_places) }
    ensures { (result ≡ flags_to prices levels.now n) × (result ≤ 2 ^ 62) }
{
    prices.coded + count_of(&levels[..n - 1]) * prices.more + prices.last
}

// levels: the block's magnitudes, cs: the |c| that they stand for, both in scan order.
// Kept: two slices: each is read off the scan alone, and levels alone are changed and written back (`order`, `trial`).
pub fn price_of(levels: &[u16], cs: &[u16], weights: Weights) -> u64
    requires { Priceable weights.prices weights.scale levels.now cs.now }
    ensures { result ≡ held (price (rule_by weights.prices weights.scale) levels.now
        (places_of weights.scale cs.now)) }
{
    let n = size_of(levels);
    let rest = uncoded_of(&cs[n..], weights.scale);
    if n == 0 {
        return add(rest, weights.prices.empty);
    }
    let front = costs_of(levels, cs, n, weights);
    let flags = flags_of(levels, n, weights.prices);
    add(add(front, rest), flags)
}
