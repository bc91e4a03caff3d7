// The forward transform of a block of residuals: both stages, and the one rounding behind them. Its contracts speak of
// the double sum over the block, never of stages, and of what is refused and in which order.
#![tactic(auto)]

ghost use Rattle.std.specs.Prelude.{◌≡◌};
ghost use Rattle.integers.specs.Tests.{some};
ghost use Rattle.refusals.specs.Faults.{verdict_outcome};
ghost use Rattle.transform.specs.Call.{called, trans_buffer, trans_verdict, wild};

use block::transform;
use refusals::Refusal;
use refusals::ranges::Side;

mod block;

// Whether some residual is outside ±1023.
pub fn has_wild(block: &[i16]) -> bool
    ensures { result ≡ some wild block.now }
{
    let mut found = false;
    // Kept: `any` takes one value at a time, ten times slower; a test of magnitudes is 1.6 times slower.
    for v in block {
        found |= (*v < -1023) | (1023 < *v);
    }
    found
}

// The residuals of a block at the front of the buffer, by rows, become its coefficients.
pub fn trans(block: &mut [i16], log2_w: usize, log2_h: usize) -> Result<(), Refusal>
    ensures answer { verdict_outcome result ≡ trans_verdict (called block.old log2_w log2_h) }
    ensures buffer { block.new ≡ trans_buffer (called block.old log2_w log2_h) }
{
    let width = Side::try_from(log2_w)?;
    let height = Side::try_from(log2_h)?;
    let n = width.length() * height.length();
    if block.len() < n {
        return Err(Refusal::Length);
    }
    if has_wild(&block[..n]) {
        return Err(Refusal::Sample);
    }
    transform(&mut block[..n], width, height);
    Ok(())
}
