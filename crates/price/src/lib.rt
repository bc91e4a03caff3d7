// What a level costs and what a finished block costs: the quantiser's numbers, the cost tables and lambda, each by a
// definition of specs/ that says document 01's words. What is worked out at run time stands here: whether a lambda and
// the cost tables are refused, and the whole number of an accepted lambda.
#![tactic(auto)]

ghost use Rattle.std.specs.Prelude.{◌≡◌, ◌+◌, ◌^◌, ◌≤◌, false, length, take, drop};
ghost use Rattle.integers.specs.Tests.{some};
ghost use Rattle.price.specs.Lambda.{lambda_refused, lambda_sum, LambdaWhole};
ghost use Rattle.price.specs.Costs.{dear, costs_of, cost_refused};
ghost use Rattle.price.specs.Inner.Bits.{NoneAbove};

// The cost tables, flat: pair k of a table stands at 2k and 2k+1. 4 run pairs, 4 level pairs, 2 last pairs, and 4 cbf
// pairs: all, luma, cb, cr.
#[derive(Clone, Copy)]
pub struct Costs {
    pub run: [u64; 8],
    pub level: [u64; 8],
    pub last: [u64; 4],
    pub cbf: [u64; 8],
}

// One component's settings.
#[derive(Clone, Copy)]
pub struct Settings {
    pub qp: u32,
    pub lambda: f64,
}

// 3 LAMBDA. -0.0 is not below 0.
pub fn lambda_refused(d: f64) -> bool
    ensures { result ≡ lambda_refused d }
{
    d.is_nan() || d < 0.0 || d > 8192.0
}

// The sum whose fraction is dropped: two operations, each rounded once.
fn lambda_sum(d: f64) -> f64
    ensures { result ≡ lambda_sum d }
{
    d * 32768.0 + 0.5
}

// The whole number of an accepted lambda.
#[derive(Clone, Copy)]
pub struct WholeLambda {
    pub number: u64,
    pub ghost within: { number ≤ 2 ^ 28 },
}

pub fn lambda_whole(d: f64) -> WholeLambda
    requires { lambda_refused d ≡ false }
    ensures { LambdaWhole d result.number }
{
    WholeLambda {
        number: std::num::truncating_f64_to_u64(lambda_sum(d)),
    }
}

// Whether some entry is above the most that a cost may be. A loop with one way out is made into vector code.
#[tactic(auto, using(crate::proofs::Dear::next, crate::proofs::Dear::whole))]
fn some_dear(table: &[u64]) -> bool
    ensures { result ≡ some dear table.now }
{
    let mut found = false;
    for cost in table {
        found |= 1048576 < *cost;
    }
    found
}

// The bits of all entries: no entry is above them.
fn all_bits(table: &[u64]) -> u64
    ensures { NoneAbove result table.now }
{
    let mut bits = 0;
    for cost in table {
        bits |= *cost;
    }
    bits
}

// 4 COST. The tables are lent as 28 numbers, and looked at where they stand: nothing is copied for a block that is
// refused or skipped. Entries are seldom near the limit, so that their bits together show nearly always that none is
// above it; that takes less time than as many comparisons.
#[tactic(auto, using(crate::proofs::Rates::dear_in_all, crate::proofs::Rates::refused_by_none))]
pub fn costs_refused(costs: &[u64; 28]) -> bool
    ensures { result ≡ cost_refused (costs_of costs.now) }
{
    1048576 < all_bits(costs) && some_dear(costs)
}

// N numbers from the i-th on.
fn stretch<const N: usize>(numbers: &[u64], i: usize) -> [u64; N]
    requires { i + N ≤ length numbers.now }
    ensures { result ≡ take N (drop i numbers.now) }
{
    let mut table = [0; N];
    table.copy_from_slice(&numbers[i..i + N]);
    table
}

// The tables of the 28 numbers, one behind the other.
pub fn costs_of(numbers: &[u64; 28]) -> Costs
    ensures { result ≡ costs_of numbers.now }
{
    Costs {
        run: stretch(numbers, 0),
        level: stretch(numbers, 8),
        last: stretch(numbers, 16),
        cbf: stretch(numbers, 20),
    }
}
