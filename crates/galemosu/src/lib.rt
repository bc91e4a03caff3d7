// What the exports for C and Rust do, nothing else: each takes whole numbers, f64s, slices and arrays, and answers 0 or a
// refusal's number. What the numbers ask for, and what is left then, is said once, in `surface`. The symbols themselves
// are `galemosu_c`'s.
#![tactic(auto)]

ghost use Rattle.std.specs.Prelude.{◌≡◌};
ghost use Rattle.refusals.specs.declared.Component.TheVariants.{Y, U, «V»};
ghost use Rattle.runs.specs.Call.{writing, reading};
ghost use Rattle.transform.specs.Call.{called};
ghost use Rattle.decoding.specs.Call.{levels_lent, coefficients_lent};
ghost use Rattle.heights.specs.Call.{lent};
ghost use Rattle.surface.specs.Surface.{TransLeft, ScaleLeft, InverseLeft, MeasureLeft, WriteLeft, ReadLeft};
ghost use Rattle.surface.specs.Surface.{quant_asked, QuantLeft, three_asked, ThreeLeft, guarded_asked, GuardedLeft};

use refusals::Component;
use wire::{
    guarded_block, inverse, measure, quantise, read_symbols, scale_back, sub_block, transform,
    write_symbols,
};

// Which surface this is: 10000 times the first number of the version, 100 times the second, and the third. The header
// and the host crate have the same number.
pub fn galemosu_version() -> u32
    ensures { result ≡ 600 }
{
    600
}

// Kept: each function is a call of its like in `wire`: these are the names that the exports and a Rust host go by.
pub fn galemosu_transform(block: &mut [i16], log2_w: usize, log2_h: usize) -> u32
    ensures { TransLeft (called block.old log2_w log2_h) result block.new }
{
    transform(block, log2_w, log2_h)
}

// Kept: one function for each component: the C interface has these three names, and a C call has no `Component`.
pub fn galemosu_quantise_y(
    block: &mut [i16],
    log2_side: usize,
    qp: u32,
    lambda: f64,
    flags: u32,
    costs: &[u64; 28],
    answer: &mut [u64; 3],
) -> u32
    ensures { QuantLeft (quant_asked Y block.old log2_side qp lambda flags costs.now) result
        answer.new block.new }
{
    quantise(
        Component::Y,
        block,
        log2_side,
        qp,
        lambda,
        flags,
        costs,
        answer,
    )
}

pub fn galemosu_quantise_u(
    block: &mut [i16],
    log2_side: usize,
    qp: u32,
    lambda: f64,
    flags: u32,
    costs: &[u64; 28],
    answer: &mut [u64; 3],
) -> u32
    ensures { QuantLeft (quant_asked U block.old log2_side qp lambda flags costs.now) result
        answer.new block.new }
{
    quantise(
        Component::U,
        block,
        log2_side,
        qp,
        lambda,
        flags,
        costs,
        answer,
    )
}

pub fn galemosu_quantise_v(
    block: &mut [i16],
    log2_side: usize,
    qp: u32,
    lambda: f64,
    flags: u32,
    costs: &[u64; 28],
    answer: &mut [u64; 3],
) -> u32
    ensures { QuantLeft (quant_asked «V» block.old log2_side qp lambda flags costs.now) result
        answer.new block.new }
{
    quantise(
        Component::V,
        block,
        log2_side,
        qp,
        lambda,
        flags,
        costs,
        answer,
    )
}

pub fn galemosu_sub_block(
    buffer: &mut [i16],
    log2_luma: usize,
    qp: &[u32; 3],
    lambda: &[f64; 3],
    run: u32,
    flags: u32,
    costs: &[u64; 28],
    answer: &mut [u64; 7],
) -> u32
    ensures { ThreeLeft
        (three_asked buffer.old log2_luma qp.now lambda.now run flags
        costs.now) result answer.new buffer.new }
{
    sub_block(buffer, log2_luma, qp, lambda, run, flags, costs, answer)
}

pub fn galemosu_scale_back(block: &mut [i16], log2_side: usize, qp: u32) -> u32
    ensures { ScaleLeft (levels_lent block.old log2_side qp) result block.new }
{
    scale_back(block, log2_side, qp)
}

pub fn galemosu_inverse(block: &mut [i16], log2_w: usize, log2_h: usize) -> u32
    ensures { InverseLeft (coefficients_lent block.old log2_w log2_h) result block.new }
{
    inverse(block, log2_w, log2_h)
}

pub fn galemosu_guarded_sub_block(
    buffer: &mut [i16],
    log2_luma: usize,
    qp: &[u32; 3],
    lambda: &[f64; 3],
    run: u32,
    flags: u32,
    costs: &[u64; 28],
    heights: &[u32; 6],
    answer: &mut [u64; 13],
) -> u32
    ensures { GuardedLeft
        (guarded_asked buffer.old log2_luma qp.now lambda.now run flags
        costs.now heights.now) result answer.new buffer.new }
{
    guarded_block(
        buffer, log2_luma, qp, lambda, run, flags, costs, heights, answer,
    )
}

// No bit of the flags means anything.
pub fn galemosu_measure(
    residuals: &[i16],
    levels: &[i16],
    log2_side: usize,
    qp: u32,
    flags: u32,
    answer: &mut [u64; 2],
) -> u32
    ensures { MeasureLeft (lent residuals.now levels.now log2_side qp)
        result answer.new }
{
    measure(residuals, levels, log2_side, qp, answer)
}

pub fn galemosu_write_symbols(
    block: &[i16],
    log2_side: usize,
    list: &mut [u32],
    answer: &mut [u64; 1],
) -> u32
    ensures { WriteLeft (writing block.now log2_side list.old)
        result answer.new list.new }
{
    write_symbols(block, log2_side, list, answer)
}

pub fn galemosu_read_symbols(list: &[u32], block: &mut [i16], log2_side: usize) -> u32
    ensures { ReadLeft (reading list.now block.old log2_side) result block.new }
{
    read_symbols(list, block, log2_side)
}
