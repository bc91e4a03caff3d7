// The calls over flat numbers, as they cross to C and Rust: whole numbers, f64s, slices and arrays go in. A result is 0
// or a refusal's number, and what else a call answers is written into an array. Each is the call that `surface` says
// the numbers ask for.
#![tactic(auto)]

ghost use Rattle.runs.specs.Call.{writing, reading};
ghost use Rattle.transform.specs.Call.{called};
ghost use Rattle.decoding.specs.Call.{levels_lent, coefficients_lent};
ghost use Rattle.heights.specs.Call.{lent};
ghost use Rattle.surface.specs.Surface.{TransLeft, ScaleLeft, InverseLeft, MeasureLeft, WriteLeft, ReadLeft};
ghost use Rattle.surface.specs.Surface.{quant_asked, QuantLeft, three_asked, ThreeLeft, guarded_asked, GuardedLeft};

use guarded::guarded_sub_block;
use quantise::quant_nnz;
use refusals::Component;
use subblock::sub_block_tq;
use surface::{
    coding_of, heights_of, put_guarded, put_measure, put_quant, put_three, put_write, request_of,
    result_of,
};
use transform::trans;

// Kept: flat arguments that travel together, here and below: they are the C interface.
pub fn transform(block: &mut [i16], log2_w: usize, log2_h: usize) -> u32
    ensures { TransLeft (called block.old log2_w log2_h) result block.new }
{
    result_of(trans(block, log2_w, log2_h))
}

pub fn quantise(
    component: Component,
    block: &mut [i16],
    log2_side: usize,
    qp: u32,
    lambda: f64,
    flags: u32,
    costs: &[u64; 28],
    answer: &mut [u64; 3],
) -> u32
    ensures { QuantLeft
        (quant_asked component block.old log2_side qp lambda flags costs.now)
        result answer.new block.new }
{
    let coding = coding_of(component, log2_side, qp, lambda, flags);
    put_quant(quant_nnz(block, costs, coding), answer)
}

pub fn sub_block(
    buffer: &mut [i16],
    log2_luma: usize,
    qp: &[u32; 3],
    lambda: &[f64; 3],
    run: u32,
    flags: u32,
    costs: &[u64; 28],
    answer: &mut [u64; 7],
) -> u32
    ensures { ThreeLeft
        (three_asked buffer.old log2_luma qp.now lambda.now run flags
        costs.now) result answer.new buffer.new }
{
    let q = request_of(log2_luma, qp, lambda, run, flags);
    put_three(sub_block_tq(buffer, costs, q), answer)
}

pub fn scale_back(block: &mut [i16], log2_side: usize, qp: u32) -> u32
    ensures { ScaleLeft (levels_lent block.old log2_side qp) result block.new }
{
    result_of(residuals::scale_back(block, log2_side, qp))
}

pub fn inverse(block: &mut [i16], log2_w: usize, log2_h: usize) -> u32
    ensures { InverseLeft (coefficients_lent block.old log2_w log2_h) result block.new }
{
    result_of(residuals::inverse(block, log2_w, log2_h))
}

pub fn guarded_block(
    buffer: &mut [i16],
    log2_luma: usize,
    qp: &[u32; 3],
    lambda: &[f64; 3],
    run: u32,
    flags: u32,
    costs: &[u64; 28],
    heights: &[u32; 6],
    answer: &mut [u64; 13],
) -> u32
    ensures { GuardedLeft
        (guarded_asked buffer.old log2_luma qp.now lambda.now run flags
        costs.now heights.now) result answer.new buffer.new }
{
    let q = request_of(log2_luma, qp, lambda, run, flags);
    let h = heights_of(heights);
    put_guarded(guarded_sub_block(buffer, costs, q, h), answer)
}

pub fn measure(
    residuals: &[i16],
    levels: &[i16],
    log2_side: usize,
    qp: u32,
    answer: &mut [u64; 2],
) -> u32
    ensures { MeasureLeft (lent residuals.now levels.now log2_side qp)
        result answer.new }
{
    put_measure(measure::measure(residuals, levels, log2_side, qp), answer)
}

pub fn write_symbols(
    block: &[i16],
    log2_side: usize,
    list: &mut [u32],
    answer: &mut [u64; 1],
) -> u32
    ensures { WriteLeft (writing block.now log2_side list.old)
        result answer.new list.new }
{
    put_write(symbols::write_symbols(block, log2_side, list), answer)
}

pub fn read_symbols(list: &[u32], block: &mut [i16], log2_side: usize) -> u32
    ensures { ReadLeft (reading list.now block.old log2_side) result block.new }
{
    result_of(symbols::read_symbols(list, block, log2_side))
}
