// Transform and quantiser over the three components of a block, which stand in one lent buffer: Y, then U, then V.
// Nothing is written until every test of every component has passed.
#![tactic(auto)]

ghost use Rattle.std.specs.Prelude.{◌≡◌};
ghost use Rattle.price.specs.Costs.{costs_of};
ghost use Rattle.components.specs.Call.{requested, sub_block_outcome, sub_block_answer, sub_block_buffer};
ghost use Rattle.stretch.specs.Inner.Part.{part_answer, part_left};

use coding::Coded;
use components::Request;
use refusals::{Component, Refused, Three};
use stretch::code_component;
use turns::{Coder, code_components_with_room};

// A component is transformed and quantised; what is shown of it is not looked at.
#[derive(Clone, Copy)]
struct Plain;

impl Coder for Plain {
    type Share = Coded;

    ghost wide = { 0 };

    ghost answer = { λ coder t q k r. part_answer k t q r };

    ghost left = { λ coder t q k r. part_left k t q r };

    fn code(
        &self,
        part: &mut [i16],
        _residuals: &[i16],
        _shown: &mut [i16],
        costs: &[u64; 28],
        q: Request,
        component: Component,
    ) -> Result<Coded, Refused> {
        code_component(part, costs, q, component)
    }
}

pub fn sub_block_tq(
    buffer: &mut [i16],
    costs: &[u64; 28],
    q: Request,
) -> Result<Three<Coded>, Refused>
    ensures answer { sub_block_outcome result
        ≡ sub_block_answer (requested buffer.old (costs_of costs.now) q) }
    ensures buffer { buffer.new
        ≡ sub_block_buffer (requested buffer.old (costs_of costs.now) q) }
{
    code_components_with_room::<Plain, 0>(&Plain, buffer, costs, q)
}
