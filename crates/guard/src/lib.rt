// One component of the guarded call: the block that its mode writes, if what the viewer makes of it lies within the
// host's heights, else the first candidate of which that holds.
#![tactic(auto)]

ghost use Rattle.std.specs.Prelude.{◌≡◌, ◌≤◌, length};
ghost use Rattle.price.specs.Costs.{costs_of};
ghost use Rattle.heights.specs.Extremes.{within};
ghost use Rattle.guarding.specs.Inner.Held.{guard_by, Guardable, Held};
ghost use Rattle.stretch.specs.Inner.Part.{Ready};
ghost use Rattle.guard.specs.Inner.Part.{OfMode, HeldPart};

use admission::is_run;
use candidates::repair;
use coding::{Coded, Coding};
use components::Request;
use guarding::Guarded;
use heights::{Extremes, Heights};
use measure::look;
use refusals::ranges::{Qp, Side};
use refusals::{Component, Refused, Three};
use stretch::{code_component, coding_of};

#[tactic(auto, unfolding(heights::specs::Extremes::within))]
fn within(e: Extremes, h: Heights) -> bool
    ensures { result ≡ within e h }
{
    e.darker <= h.darker && e.lighter <= h.lighter
}

// The levels are those of the block that the mode writes, and `coded` is its count and its price.
pub fn guard(
    levels: &mut [i16],
    residuals: &[i16],
    shown: &mut [i16],
    costs: &[u64; 28],
    coding: Coding,
    h: Heights,
    coded: Coded,
) -> Result<Guarded, Refused>
    requires guardable { Guardable residuals.now (costs_of costs.now) coding h levels.old shown.old }
    requires of_mode { OfMode (guard_by residuals.now (costs_of costs.now) coding h).call coded }
    ensures { Held (guard_by residuals.now (costs_of costs.now) coding h)
        levels.new result }
{
    let side = Side { log2: coding.log2 };
    let qp = Qp {
        qp: coding.settings.qp,
    };
    let e = look(residuals, levels, shown, side, qp);
    if within(e, h) {
        return Ok(Guarded {
            count: coded.count,
            price: coded.price,
            darker: e.darker,
            lighter: e.lighter,
        });
    }
    repair(levels, residuals, shown, costs, coding, h)
}

// A component's residuals, which stand in its part of the room too.
pub fn guard_component(
    part: &mut [i16],
    residuals: &[i16],
    shown: &mut [i16],
    costs: &[u64; 28],
    q: Request,
    component: Component,
    h: Three<Heights>,
) -> Result<Guarded, Refused>
    requires ready { Ready component (costs_of costs.now) q part.old }
    requires part_value { (part.old ≡ residuals.now) × (1024 ≤ length shown.old) }
    ensures { HeldPart component (costs_of costs.now) q h part.old part.new result }
{
    if !is_run(q.run, component) {
        return Ok(Guarded {
            count: 0,
            price: 0,
            darker: 0,
            lighter: 0,
        });
    }
    let coded = code_component(part, costs, q, component)?;
    let coding = coding_of(q, component);
    let n = part.len();
    guard(
        part,
        residuals,
        &mut shown[..n],
        costs,
        coding,
        h.of(component),
        coded,
    )
}
