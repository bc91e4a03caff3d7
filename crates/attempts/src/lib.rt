// The candidates of a guarded block in their order, from the first that puts a level back: the first that fits is left
// in the levels' place, and reported; where none fits the block is refused.
#![tactic(auto)]

ghost use Rattle.std.specs.Prelude.{length};
ghost use Rattle.finished.specs.Inner.Finished.{Priceable};
ghost use Rattle.trial.specs.Inner.Whole.{Rooms};
ghost use Rattle.attempts.specs.Inner.Candidates.{RepairedAs};

use guarding::Guarded;
use refusals::{Component, Refusal, Refused};
use trial::{Block, put_back};

// The first 1, 2, 4, .. places put back, up to all. What is put back stays so.
pub fn try_all(
    block: Block,
    component: Component,
    ms: &mut [u16],
    levels: &mut [i16],
    shown: &mut [i16],
    rows: &mut [u16],
) -> Result<Guarded, Refused>
    requires priceable { Priceable block.terms.weights.prices block.terms.weights.scale ms.old block.places.now }
    requires rooms { Rooms (length block.residuals.now) (length levels.old) (length shown.old) (length rows.old) }
    ensures { RepairedAs block.entry.terms component block.entry.residuals.now block.entry.coefs.now
        block.entry.places.now ms.old levels.new result }
{
    for i in 0..2 * block.terms.log2 + 1 {
        let p: usize = 1 << i;
        put_back(&mut ms[..p], &block.places[..p], block.terms.weights.scale);
        if let Some(coded) = block.try_one(ms, levels, shown, rows) {
            return Ok(coded);
        }
    }
    Err(Refused {
        why: Refusal::Height,
        component,
    })
}
