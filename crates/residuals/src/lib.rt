// Levels back to residuals, the viewer's half: levels are scaled back to coefficients, and the inverse transform makes
// residuals of them. The contracts speak of one product and one shift a level, of the double sum over the block rounded
// once and clipped, never of stages, and of what is refused and in which order.
#![tactic(auto)]

ghost use Rattle.std.specs.Prelude.{◌≡◌};
ghost use Rattle.refusals.specs.Faults.{verdict_outcome};
ghost use Rattle.decoding.specs.Call.{levels_lent, scale_verdict, scale_buffer};
ghost use Rattle.decoding.specs.Call.{coefficients_lent, inverse_verdict, inverse_buffer};

use block::restore;
use refusals::Refusal;
use refusals::ranges::{Qp, Side};
use rescale::rescale;

pub mod block;

// The levels of a square block at the front of the buffer, by rows, become its coefficients.
#[tactic(auto, unfolding(decoding::specs::Call::scale_verdict, decoding::specs::Call::scale_buffer))]
pub fn scale_back(block: &mut [i16], log2_side: usize, qp: u32) -> Result<(), Refusal>
    ensures answer { verdict_outcome result ≡ scale_verdict (levels_lent block.old log2_side qp) }
    ensures buffer { block.new ≡ scale_buffer (levels_lent block.old log2_side qp) }
{
    let side = Side::try_from(log2_side)?;
    let qp = Qp::try_from(qp)?;
    let n = side.length() * side.length();
    if block.len() < n {
        return Err(Refusal::Length);
    }
    rescale(&mut block[..n], side, qp);
    Ok(())
}

// The coefficients of a block at the front of the buffer, by rows, become its residuals.
#[tactic(auto, unfolding(decoding::specs::Call::inverse_verdict, decoding::specs::Call::inverse_buffer))]
pub fn inverse(block: &mut [i16], log2_w: usize, log2_h: usize) -> Result<(), Refusal>
    ensures answer { verdict_outcome result
        ≡ inverse_verdict (coefficients_lent block.old log2_w log2_h) }
    ensures buffer { block.new
        ≡ inverse_buffer (coefficients_lent block.old log2_w log2_h) }
{
    let width = Side::try_from(log2_w)?;
    let height = Side::try_from(log2_h)?;
    let n = width.length() * height.length();
    if block.len() < n {
        return Err(Refusal::Length);
    }
    restore(&mut block[..n], width, height);
    Ok(())
}
