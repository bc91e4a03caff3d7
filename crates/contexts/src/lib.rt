// The prices of a block: the cost tables read by a component's contexts, once, with lambda multiplied in. A rate by
// these prices is lambda times the rate that the `price` crate defines.
#![tactic(auto)]

ghost use Rattle.std.specs.Prelude.{ℕ, ◌≤◌, ◌<◌, ◌+◌, ◌*◌, length, get_or};
ghost use Rattle.price.specs.Costs.{InRange, costs_of};
ghost use Rattle.contexts.specs.Inner.Inside.{InsideTables};
ghost use Rattle.contexts.specs.Inner.Reading.{PairOf, EmptyPrice, PricesOf};

use price::{Costs, WholeLambda};
use refusals::Component;
use weights::prices::Prices;

// Where a component's pairs stand in each table.
#[derive(Clone, Copy)]
pub struct Contexts {
    pub run: usize,
    pub level: usize,
    pub last: usize,
    pub cbf: usize,
    pub ghost inside: { InsideTables run level last cbf },
}

// A pair of a table, with lambda multiplied in.
#[derive(Clone, Copy)]
pub struct Pair {
    pub first: u64,
    pub second: u64,
}

fn pair_at(table: &[u64], row: usize, lambda: WholeLambda) -> Pair
    requires { (2 * row + 1 < length table.now) × ((k : ℕ) → get_or table.now k 0 ≤ 1048576) }
    ensures { PairOf lambda.number table.now row result }
{
    let k = 2 * row;
    Pair {
        first: lambda.number * table[k],
        second: lambda.number * table[k + 1],
    }
}

impl Contexts {
    ghost use Rattle.contexts.specs.Inner.Rows.{rows_in, ContextsOf};

    #[tactic(auto, unfolding(price::specs::Rows::rows_of))]
    pub fn of(component: Component, intra_coded: bool) -> Contexts
        ensures { ContextsOf component intra_coded result }
    {
        let (run, level, last, cbf) = match (component, intra_coded) {
            (Component::Y, false) => (0, 0, 0, 0),
            (Component::Y, true) => (0, 0, 0, 1),
            (Component::U, _) => (2, 2, 1, 2),
            (Component::V, _) => (2, 2, 1, 3),
        };
        Contexts {
            run,
            level,
            last,
            cbf,
        }
    }

    // What an empty block's flag costs, by the cost tables as they are lent: all that is read of them for a skipped
    // block.
    pub fn empty_price(self, costs: &[u64; 28], lambda: WholeLambda) -> u64
        requires { InRange (costs_of costs.now) }
        ensures { EmptyPrice lambda.number (costs_of costs.now) (rows_in self) result }
    {
        let k = 20 + 2 * self.cbf;
        lambda.number * costs[k]
    }

    pub fn prices(self, costs: Costs, lambda: WholeLambda) -> Prices
        requires { InRange costs }
        ensures { PricesOf 32768 lambda.number costs (rows_in self) result }
    {
        let run = pair_at(&costs.run, self.run, lambda);
        let runs = pair_at(&costs.run, self.run + 1, lambda);
        let low = pair_at(&costs.level, self.level, lambda);
        let high = pair_at(&costs.level, self.level + 1, lambda);
        let ends = pair_at(&costs.last, self.last, lambda);
        let cbf = pair_at(&costs.cbf, self.cbf, lambda);
        let sign = lambda.number * 32768;
        Prices {
            zero: run.second,
            zeros: runs.second,
            head: sign + run.first,
            heads: sign + runs.first,
            one: low.first,
            two: low.second + high.first,
            each: high.second,
            more: ends.first,
            last: ends.second,
            empty: cbf.first,
            coded: cbf.second,
        }
    }
}
