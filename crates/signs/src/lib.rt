// The signs of a block, taken off and put back: what is kept of its coefficients for the choice of levels, and the
// levels in the place of the coefficients. What is kept stands for the block, and what is put back is the definition's
// (specs/Block.antt of `coding`).
#![tactic(auto)]

ghost use Rattle.std.specs.Prelude.{◌≡◌, ℕ, ◌≤◌, length, get_or};
ghost use Rattle.price.specs.Price.{nonzeros};
ghost use Rattle.coding.specs.Block.{signs};
ghost use Rattle.signs.specs.Inner.Signs.{KeptAs};

use scaling::scale::Scale;

// |c| where its m is above 0, else 0; how many are not 0.
pub fn keep(block: &[i16], kept: &mut [u16], scale: Scale) -> usize
    requires { (length kept.old ≡ length block.now) × (length block.now ≤ 4096) }
    ensures { KeptAs scale block.now kept.new result }
{
    let mut count: u16 = 0;
    for (i, c) in block.iter().enumerate() {
        let a = c.unsigned_abs();
        let v = if scale.least <= a { a } else { 0 };
        kept[i] = v;
        if v != 0 {
            count += 1;
        }
    }
    usize::from(count)
}

// Each magnitude with its coefficient's sign, in the coefficient's place; how many are not 0.
pub fn put_signs(block: &mut [i16], levels: &[u16]) -> u32
    requires { (length levels.now ≡ length block.old) × (length block.old ≤ 4096)
        × ((k : ℕ) → get_or levels.now k 0 ≤ 32767) }
    ensures { (block.new ≡ signs block.old levels.now)
        × (result ≡ nonzeros levels.now) }
{
    let mut count: u16 = 0;
    for (i, level) in levels.iter().enumerate() {
        let a = *level as i16;
        block[i] = if block[i] < 0 { -a } else { a };
        if a != 0 {
            count += 1;
        }
    }
    u32::from(count)
}
