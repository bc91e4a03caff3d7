// The guarded call: transform and quantiser over the three components of a block, each guarded by the host's heights.
// Nothing is written until every test of every component has passed.
#![tactic(auto)]

ghost use Rattle.std.specs.Prelude.{◌≡◌};
ghost use Rattle.price.specs.Costs.{costs_of};
ghost use Rattle.guarding.specs.Call.{guarded_request, guarded_outcome, guarded_answer, guarded_buffer};
ghost use Rattle.guard.specs.Inner.Part.{guard_part_answer, guard_part_left};

use components::Request;
use guard::guard_component;
use guarding::Guarded;
use heights::Heights;
use refusals::{Component, Refused, Three};
use turns::{Coder, code_components_with_room};

// A component is guarded by its heights, and looked at in a room as large as the largest block.
#[derive(Clone, Copy)]
struct Guarding {
    heights: Three<Heights>,
}

impl Coder for Guarding {
    type Share = Guarded;

    ghost wide = { 1024 };

    ghost answer = { λ coder t q k r. guard_part_answer k t q coder.heights r };

    ghost left = { λ coder t q k r. guard_part_left k t q coder.heights r };

    fn code(
        &self,
        part: &mut [i16],
        residuals: &[i16],
        shown: &mut [i16],
        costs: &[u64; 28],
        q: Request,
        component: Component,
    ) -> Result<Guarded, Refused> {
        guard_component(part, residuals, shown, costs, q, component, self.heights)
    }
}

pub fn guarded_sub_block(
    buffer: &mut [i16],
    costs: &[u64; 28],
    q: Request,
    h: Three<Heights>,
) -> Result<Three<Guarded>, Refused>
    ensures answer { guarded_outcome result
        ≡ guarded_answer (guarded_request buffer.old (costs_of costs.now) q h) }
    ensures buffer { buffer.new
        ≡ guarded_buffer (guarded_request buffer.old (costs_of costs.now) q h) }
{
    code_components_with_room::<Guarding, 1024>(&Guarding { heights: h }, buffer, costs, q)
}
