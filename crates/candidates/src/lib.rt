// The repair of a guarded block: its coefficients are worked out again, they and the levels are read along the scan,
// and the candidates that put levels back are tried in their order.
#![tactic(auto)]

ghost use Rattle.std.specs.Prelude.{◌≡◌, false, map, ◌*◌, ◌^◌, ◌≤◌, length, nat_abs};
ghost use Rattle.integers.specs.Tests.{some};
ghost use Rattle.refusals.specs.Sides.{most_log2};
ghost use Rattle.transform.specs.Coefficients.{coefficients};
ghost use Rattle.transform.specs.Call.{wild};
ghost use Rattle.price.specs.Lambda.{lambda_refused};
ghost use Rattle.price.specs.Costs.{costs_of, cost_refused};
ghost use Rattle.coding.specs.Block.{magnitudes};
ghost use Rattle.weights.specs.Inner.Places.{in_scan};
ghost use Rattle.guarding.specs.Block.{fits};
ghost use Rattle.guarding.specs.Inner.Held.{guard_by, Guardable, Held};
ghost use Rattle.candidates.specs.Inner.Given.{TermsOf};

use attempts::try_all;
use coding::Coding;
use contexts::Contexts;
use guarding::Guarded;
use heights::Heights;
use order::{gather, magnitudes};
use price::{costs_of, lambda_whole};
use refusals::Refused;
use refusals::ranges::{Qp, Side};
use scaling::scale::Scale;
use scan::Scan;
use transform::trans;
use trial::{Block, Terms};
use weights::Weights;

// What the candidates of a block are tried by.
fn terms_of(costs: &[u64; 28], coding: Coding, heights: Heights) -> Terms
    requires { (1 ≤ coding.log2) × (coding.log2 ≤ most_log2) × (coding.settings.qp ≤ 63)
        × (lambda_refused coding.settings.lambda ≡ false) × (cost_refused (costs_of costs.now) ≡ false) }
    ensures { TermsOf (costs_of costs.now) coding heights result }
{
    let settings = coding.settings;
    let side = Side { log2: coding.log2 };
    let qp = Qp { qp: settings.qp };
    let lambda = lambda_whole(settings.lambda);
    let at = Contexts::of(coding.component, coding.intra_coded);
    Terms {
        weights: Weights {
            prices: at.prices(costs_of(costs), lambda),
            scale: Scale::of(side, qp),
        },
        log2: coding.log2,
        qp: settings.qp,
        heights,
    }
}

// The residuals' coefficients. Their transform is not refused.
fn transform_in(residuals: &[i16], coefs: &mut [i16], side: Side)
    requires { (length residuals.now ≡ 2 ^ side.log2 * 2 ^ side.log2)
        × (length coefs.old ≡ length residuals.now) × (some wild residuals.now ≡ false) }
    ensures { coefs.new ≡ coefficients residuals.now side.log2 side.log2 }
{
    coefs.copy_from_slice(residuals);
    let _ = trans(coefs, side.log2, side.log2);
}

// The magnitudes of a block, in scan order.
fn read_along(block: &[i16], scan: Scan, rows: &mut [u16], out: &mut [u16])
    requires { (length block.now ≡ scan.w * scan.h) × (length rows.old ≡ length block.now)
        × (length out.old ≡ length block.now) }
    ensures { out.new ≡ in_scan scan.entry.w scan.entry.h (map nat_abs block.now) }
{
    magnitudes(block, rows);
    gather(rows, scan, out);
}

// A block whose levels, as the mode writes them, do not fit.
pub fn repair(
    levels: &mut [i16],
    residuals: &[i16],
    shown: &mut [i16],
    costs: &[u64; 28],
    coding: Coding,
    h: Heights,
) -> Result<Guarded, Refused>
    requires guardable { Guardable residuals.now (costs_of costs.now) coding h levels.old shown.old }
    requires h_value { fits (guard_by residuals.now (costs_of costs.now) coding h)
        (magnitudes (guard_by residuals.now (costs_of costs.now) coding h).call) ≡ false }
    ensures { Held (guard_by residuals.now (costs_of costs.now) coding h)
        levels.new result }
{
    let n = residuals.len();
    let mut room = [0u16; 1024];
    let side = Side { log2: coding.log2 };
    let scan = Scan::square(side, &mut room[..n]);
    let mut coefs = [0i16; 1024];
    let coefs = &mut coefs[..n];
    transform_in(residuals, coefs, side);
    let mut rows = [0u16; 1024];
    let rows = &mut rows[..n];
    let mut places = [0u16; 1024];
    let places = &mut places[..n];
    read_along(coefs, scan, rows, places);
    let mut ms = [0u16; 1024];
    let ms = &mut ms[..n];
    read_along(levels, scan, rows, ms);
    let block = Block {
        terms: terms_of(costs, coding, h),
        residuals,
        coefs,
        scan,
        places,
    };
    try_all(block, coding.component, ms, levels, shown, rows)
}
