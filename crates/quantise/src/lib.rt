// The quantiser of a square block of coefficients: the quick skip, or by the mode the walk cut where it is cheapest, or
// the cheapest block of all.
#![tactic(auto)]

ghost use Rattle.std.specs.Prelude.{◌≡◌, length, replicate, pos};
ghost use Rattle.price.specs.Costs.{costs_of};
ghost use Rattle.coding.specs.Block.{called};
ghost use Rattle.coding.specs.Call.{quant_outcome, quant_answer, quant_buffer};
ghost use Rattle.quantise.specs.Inner.Early.{EarlyPassed, outcome_in};
ghost use Rattle.quantise.specs.Inner.Skip.{Skippable, SkippedAs};

use coding::{Coded, Coding};
use coefficients::distortion::{small_squares, uncoded};
use coefficients::skip::{largest, skipped_top};
use contexts::Contexts;
use price::{costs_of, costs_refused, lambda_refused, lambda_whole};
use refusals::ranges::{Qp, Side};
use refusals::{Refusal, Refused};
use rooms::code_levels;
use scaling::scale::{Scale, skip_threshold};
use weights::Weights;

// 2 QP: no QP is larger.
const MOST_QP: u32 = 63;

// 6 SAMPLE: of the coefficient -32768, which no level can have.
const LOWEST: u32 = 32768;

// 7 LEVEL: no level is larger.
const MOST_LEVEL: u64 = 32767;

// 8 PRICE: lambda·(M + 1) is at most 2^41.
const MOST_WEIGHT: u64 = 2199023255552;

// 9 DISTORTION: D is at most 2^60.
const MOST_DISTORTION: u64 = 1152921504606846976;

// A block that the quick skip clears costs what an empty block costs: D and its flag. Where every coefficient is 0
// already, there is nothing to clear, and D is 0.
fn skip_block(block: &mut [i16], scale: Scale, top: u32, empty: u64) -> Coded
    requires { Skippable scale block.old top empty }
    ensures answer { SkippedAs scale block.old empty result }
    ensures buffer { block.new ≡ replicate (length block.old) (pos 0) }
{
    if top == 0 {
        return Coded {
            count: 0,
            price: empty,
        };
    }
    let d = small_squares(block, scale);
    block.fill(0);
    Coded {
        count: 0,
        price: d + empty,
    }
}

// A block that has its own part of the buffer, where refusals 1 to 5 are past: those that are left belong to its
// component. A coefficient of -32768 is never skipped.
fn code_block(block: &mut [i16], costs: &[u64; 28], coding: Coding) -> Result<Coded, Refusal>
    requires { EarlyPassed block.old (costs_of costs.now) coding }
    ensures answer { outcome_in coding.component result ≡ quant_answer (called block.old (costs_of costs.now) coding) }
    ensures buffer { block.new ≡ quant_buffer (called block.old (costs_of costs.now) coding) }
{
    let settings = coding.settings;
    let side = Side { log2: coding.log2 };
    let qp = Qp { qp: settings.qp };
    let scale = Scale::of(side, qp);
    let lambda = lambda_whole(settings.lambda);
    let at = Contexts::of(coding.component, coding.intra_coded);
    let threshold = skip_threshold(side, qp, coding.intra_slice);
    if let Some(top) = skipped_top(block, scale.q, threshold) {
        let empty = at.empty_price(costs, lambda);
        return Ok(skip_block(block, scale, top, empty));
    }
    let top = largest(block);
    if top == LOWEST {
        return Err(Refusal::Sample);
    }
    let m = scale.rounded(top);
    if MOST_LEVEL < m {
        return Err(Refusal::Level);
    }
    if MOST_WEIGHT < lambda.number * (m + 1) {
        return Err(Refusal::Price);
    }
    let d = uncoded(block, scale);
    if MOST_DISTORTION < d {
        return Err(Refusal::Distortion);
    }
    let prices = at.prices(costs_of(costs), lambda);
    let weights = Weights { prices, scale };
    Ok(code_levels(block, side, weights, d, coding.mode))
}

// evce_quant_nnz for a square block: the levels in place of the coefficients, their count and their price.
pub fn quant_nnz(block: &mut [i16], costs: &[u64; 28], coding: Coding) -> Result<Coded, Refused>
    ensures answer { quant_outcome result ≡ quant_answer (called block.old (costs_of costs.now) coding) }
    ensures buffer { block.new ≡ quant_buffer (called block.old (costs_of costs.now) coding) }
{
    let component = coding.component;
    let settings = coding.settings;
    let side = Side::try_from(coding.log2)?;
    if MOST_QP < settings.qp {
        return Err(Refused {
            why: Refusal::Qp,
            component,
        });
    }
    if lambda_refused(settings.lambda) {
        return Err(Refused {
            why: Refusal::Lambda,
            component,
        });
    }
    if costs_refused(costs) {
        return Err(Refusal::Cost.into());
    }
    let a = side.length();
    let n = a * a;
    if block.len() < n {
        return Err(Refusal::Length.into());
    }
    code_block(&mut block[..n], costs, coding).map_err(|why| Refused { why, component })
}
