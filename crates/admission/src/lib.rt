// The tests that come before any arithmetic: sides, settings, costs, length and residuals, of what is run.
#![tactic(auto)]

ghost use Rattle.std.specs.Prelude.{◌≡◌, Bool, ◌&&◌, List, ◌+◌, ◌/◌, ◌≤◌, length, ℤ};
ghost use Rattle.integers.specs.Tests.{some};
ghost use Rattle.refusals.specs.declared.Component.{Component};
ghost use Rattle.refusals.specs.Three.{part_of};
ghost use Rattle.refusals.specs.Faults.{verdict};
ghost use Rattle.price.specs.declared.Costs.{Costs};
ghost use Rattle.price.specs.Costs.{costs_of};
ghost use Rattle.refusals.specs.Sides.{most_log2};
ghost use Rattle.components.specs.Call.{bit, requested};
ghost use Rattle.components.specs.Inner.Groups.{settings_faults, buffer_faults};
ghost use Rattle.admission.specs.Inner.Tested.{tested, first_of, Sizes, residuals};

use components::Request;
use price::{costs_refused, lambda_refused};
use refusals::{Component, Refusal, Refused, Three};
use transform::has_wild;

// Whether a component is run.
#[tactic(auto, unfolding(components::specs::Call::bit))]
pub fn is_run(run: u32, component: Component) -> bool
    ensures { result ≡ bit component run }
{
    match component {
        Component::Y => run % 2 == 1,
        Component::U => run / 2 % 2 == 1,
        Component::V => run / 4 % 2 == 1,
    }
}

// The first component that is run and of which the test holds is refused.
fn refuse_first<F: Fn(Component) -> bool>(run: u32, why: Refusal, bad: F) -> Result<(), Refused>
    requires { F.IsAlwaysCallable bad }
    ensures { (test : Component → Bool) → ((k : Component) (b : Bool) → F.post bad k b → b ≡ test k)
        → tested result ≡ first_of why (λ k. bit k run && test k) }
{
    for component in [Component::Y, Component::U, Component::V] {
        if is_run(run, component) && bad(component) {
            return Err(Refused { why, component });
        }
    }
    Ok(())
}

// 1; 2 for Y, U, V; 3 likewise.
pub fn test_settings(q: Request) -> Result<(), Refused>
    ensures { (l : List ℤ) (t : Costs) → tested result ≡ verdict settings_faults (requested l t q) }
{
    if q.log2_luma < 2 || 5 < q.log2_luma {
        return Err(Refused::from(Refusal::Side));
    }
    refuse_first(q.run, Refusal::Qp, |k| 63 < q.settings.of(k).qp)?;
    refuse_first(
        q.run,
        Refusal::Lambda,
        |k| lambda_refused(q.settings.of(k).lambda),
    )
}

// How many places the three stretches of a buffer have, Y's, then U's, then V's: a chroma block has a quarter of luma's.
#[derive(Clone, Copy)]
pub struct Stretches {
    pub luma: usize,
    pub chroma: usize,
    pub ghost small: { luma ≤ 1024 },
    pub ghost quarter: { chroma ≡ luma / 4 },
}

impl Stretches {
    // By cases, so that the compiler knows how many there can be.
    pub fn of(log2_luma: usize) -> Stretches
        requires { (2 ≤ log2_luma) × (log2_luma ≤ most_log2) }
        ensures { Sizes log2_luma result.luma }
    {
        let luma = match log2_luma {
            2 => 16,
            3 => 64,
            4 => 256,
            _ => 1024,
        };
        Stretches {
            luma,
            chroma: luma / 4,
        }
    }

    // Where they end.
    pub fn end(self) -> usize
        ensures { result ≡ self.luma + self.luma / 4 + self.luma / 4 }
    {
        self.luma + self.chroma + self.chroma
    }

    // The three of a buffer.
    pub fn parts(self, buffer: &[i16]) -> Three<&[i16]>
        requires { self.luma + self.luma / 4 + self.luma / 4 ≤ length buffer.now }
        ensures { (k : Component) → (part_of k result).now ≡ residuals k self.luma buffer.now }
    {
        let (y, chroma) = buffer.split_at(self.luma);
        let (u, rest) = chroma.split_at(self.chroma);
        Three {
            y,
            u,
            v: &rest[..self.chroma],
        }
    }
}

// 4; 5; 6 for Y, U, V.
pub fn test_buffer(buffer: &[i16], costs: &[u64; 28], q: Request) -> Result<(), Refused>
    requires { (2 ≤ q.log2_luma) × (q.log2_luma ≤ most_log2) }
    ensures { tested result
        ≡ verdict buffer_faults (requested buffer.now (costs_of costs.now) q) }
{
    if costs_refused(costs) {
        return Err(Refused::from(Refusal::Cost));
    }
    let stretches = Stretches::of(q.log2_luma);
    if buffer.len() < stretches.end() {
        return Err(Refused::from(Refusal::Length));
    }
    let parts = stretches.parts(buffer);
    refuse_first(q.run, Refusal::Sample, |k| has_wild(parts.of(k)))
}
