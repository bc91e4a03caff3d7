// One component: its residuals transformed and quantised in place, if it is run.
#![tactic(auto)]

ghost use Rattle.std.specs.Prelude.{◌≡◌, ◌≤◌};
ghost use Rattle.price.specs.Costs.{costs_of};
ghost use Rattle.coding.specs.Call.{quant_outcome};
ghost use Rattle.components.specs.Call.{log2_of};
ghost use Rattle.stretch.specs.Inner.Part.{coding_of, Ready, part_answer, part_left};

use admission::is_run;
use coding::{Coded, Coding};
use components::Request;
use quantise::quant_nnz;
use refusals::{Component, Refused};
use transform::trans;

// A component's log2 side, by luma's.
fn log2_of(log2_luma: usize, component: Component) -> usize
    requires { 1 ≤ log2_luma }
    ensures { result ≡ log2_of component log2_luma }
{
    match component {
        Component::Y => log2_luma,
        Component::U | Component::V => log2_luma - 1,
    }
}

// What the quantiser is asked of a component.
pub fn coding_of(q: Request, component: Component) -> Coding
    requires { 1 ≤ q.log2_luma }
    ensures { result ≡ coding_of component q }
{
    Coding {
        log2: log2_of(q.log2_luma, component),
        component,
        settings: q.settings.of(component),
        intra_slice: q.intra_slice,
        intra_coded: q.intra_coded,
        mode: q.mode,
    }
}

pub fn code_component(
    part: &mut [i16],
    costs: &[u64; 28],
    q: Request,
    component: Component,
) -> Result<Coded, Refused>
    requires { Ready component (costs_of costs.now) q part.old }
    ensures answer { quant_outcome result ≡ part_answer component (costs_of costs.now) q part.old }
    ensures buffer { part.new ≡ part_left component (costs_of costs.now) q part.old }
{
    if !is_run(q.run, component) {
        return Ok(Coded { count: 0, price: 0 });
    }
    let coding = coding_of(q, component);
    trans(part, coding.log2, coding.log2)?;
    quant_nnz(part, costs, coding)
}
