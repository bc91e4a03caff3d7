// A call over the three components: its early tests, then each component in its turn, in a room that holds the
// residuals of all. Nothing is written to the buffer until all three have passed. What is done to a component is its
// coder's.
#![tactic(auto)]

ghost use Rattle.std.specs.Prelude.{◌≡◌, List, ℕ, ◌+◌, ◌/◌, ◌^◌, ◌<◌, ◌≤◌, length, ℤ, Ok, Err};
ghost use Rattle.refusals.specs.declared.Component.{Component};
ghost use Rattle.refusals.specs.Faults.{Outcome, outcome_by};
ghost use Rattle.price.specs.declared.Costs.{Costs};
ghost use Rattle.price.specs.Costs.{costs_of};
ghost use Rattle.components.specs.declared.Request.{Request};
ghost use Rattle.components.specs.Call.{requested};
ghost use Rattle.stretch.specs.Inner.Part.{Ready};
ghost use Rattle.refusals.specs.declared.Refused.{Refused};
ghost use Rattle.turns.specs.Inner.Parts.{AllReady, Parted, Called};

mod lent;
#[cfg(test)]
mod tests;

use admission::{Stretches, test_buffer, test_settings};
use components::Request;
pub use lent::code_components;
use lent::code_tested;
use refusals::{Component, Refused, Three};

// What is done to a component that is ready: its part of the room holds its residuals, which are lent beside it, and
// there is room for what is shown.
pub trait Coder {
    type Share: Copy;

    ghost wide: { ℕ };

    ghost answer: { Self → Costs → Request → Component → List ℤ → Outcome Self.Share };

    ghost left: { Self → Costs → Request → Component → List ℤ → List ℤ };

    fn code(
        &self,
        part: &mut [i16],
        residuals: &[i16],
        shown: &mut [i16],
        costs: &[u64; 28],
        q: Request,
        component: Component,
    ) -> Result<Self::Share, Refused>
        requires ready { Ready component (costs_of costs.now) q part.old }
        requires given { (part.old ≡ residuals.now) × (wide ≤ length shown.old) }
        ensures answers { outcome_by (λ a. a) result ≡ answer self.now (costs_of costs.now) q component part.old }
        ensures leaves { (a : Self.Share) → result ≡ Ok a
            → part.new ≡ left self.now (costs_of costs.now) q component part.old };
}

// The three components of a room that holds their residuals.
fn in_turn<C: Coder>(
    coder: &C,
    room: &mut [i16],
    residuals: &[i16],
    shown: &mut [i16],
    costs: &[u64; 28],
    q: Request,
    stretches: Stretches,
) -> Result<Three<C::Share>, Refused>
    requires ready { AllReady (costs_of costs.now) q stretches.luma room.old }
    requires given { (room.old ≡ residuals.now) × (C.wide ≤ length shown.old) }
    ensures { Parted (C.answer coder.now (costs_of costs.now) q) (C.left coder.now (costs_of costs.now) q)
        stretches.luma room.old room.new result }
{
    let parts = stretches.parts(residuals);
    let (of_y, chroma) = room.split_at_mut(stretches.luma);
    let (of_u, of_v) = chroma.split_at_mut(stretches.chroma);
    let y = coder.code(of_y, parts.y, shown, costs, q, Component::Y)?;
    let u = coder.code(of_u, parts.u, shown, costs, q, Component::U)?;
    let v = coder.code(of_v, parts.v, shown, costs, q, Component::V)?;
    Ok(Three { y, u, v })
}

// The stretches at the front of a buffer, coded in a room of their own, and written once all three have passed.
fn in_room<C: Coder>(
    coder: &C,
    room: &mut [i16],
    front: &mut [i16],
    shown: &mut [i16],
    costs: &[u64; 28],
    q: Request,
    stretches: Stretches,
) -> Result<Three<C::Share>, Refused>
    requires ready { AllReady (costs_of costs.now) q stretches.luma front.old }
    requires given { (length room.old ≡ length front.old) × (C.wide ≤ length shown.old) }
    ensures parted { Parted (C.answer coder.now (costs_of costs.now) q) (C.left coder.now (costs_of costs.now) q)
        stretches.luma front.old front.new result }
    ensures kept { (r : Refused) → result ≡ Err r → front.new ≡ front.old }
{
    room.copy_from_slice(front);
    let shares = in_turn(coder, room, front, shown, costs, q, stretches)?;
    front.copy_from_slice(room);
    Ok(shares)
}

// The call over the three components, with ROOM places for what is shown of one, made once the tests have passed: a
// refused call clears none.
pub fn code_components_with_room<C: Coder, const ROOM: usize>(
    coder: &C,
    buffer: &mut [i16],
    costs: &[u64; 28],
    q: Request,
) -> Result<Three<C::Share>, Refused>
    requires { (C.wide ≤ ROOM) × (ROOM < 2 ^ 62) }
    ensures { Called (C.answer coder.now (costs_of costs.now) q) (C.left coder.now (costs_of costs.now) q)
        (requested buffer.old (costs_of costs.now) q) buffer.new result }
{
    test_settings(q)?;
    test_buffer(buffer, costs, q)?;
    let mut shown = [0i16; ROOM];
    code_tested(coder, buffer, &mut shown, costs, q)
}
