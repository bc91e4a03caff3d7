// The call over the three components where the room for what is shown of one is lent.
ghost use Rattle.std.specs.Prelude.{◌≤◌, length};
ghost use Rattle.price.specs.Costs.{costs_of};
ghost use Rattle.components.specs.Call.{requested};
ghost use Rattle.components.specs.Inner.Groups.{EarlyPassed};
ghost use Rattle.turns.specs.Inner.Parts.{Called};

use crate::{Coder, in_room};
use admission::{Stretches, test_buffer, test_settings};
use components::Request;
use refusals::{Refused, Three};

// A call that has passed its early tests, in a room for the largest call.
pub(crate) fn code_tested<C: Coder>(
    coder: &C,
    buffer: &mut [i16],
    shown: &mut [i16],
    costs: &[u64; 28],
    q: Request,
) -> Result<Three<C::Share>, Refused>
    requires early { EarlyPassed (requested buffer.old (costs_of costs.now) q) }
    requires wide { C.wide ≤ length shown.old }
    ensures { Called (C.answer coder.now (costs_of costs.now) q) (C.left coder.now (costs_of costs.now) q)
        (requested buffer.old (costs_of costs.now) q) buffer.new result }
{
    let stretches = Stretches::of(q.log2_luma);
    let end = stretches.end();
    let mut room = [0i16; 1536];
    in_room(
        coder,
        &mut room[..end],
        &mut buffer[..end],
        shown,
        costs,
        q,
        stretches,
    )
}

pub fn code_components<C: Coder>(
    coder: &C,
    buffer: &mut [i16],
    shown: &mut [i16],
    costs: &[u64; 28],
    q: Request,
) -> Result<Three<C::Share>, Refused>
    requires { C.wide ≤ length shown.old }
    ensures { Called (C.answer coder.now (costs_of costs.now) q) (C.left coder.now (costs_of costs.now) q)
        (requested buffer.old (costs_of costs.now) q) buffer.new result }
{
    test_settings(q)?;
    test_buffer(buffer, costs, q)?;
    code_tested(coder, buffer, shown, costs, q)
}
