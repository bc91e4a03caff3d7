// What the coefficients of a block are scaled and rounded by, worked out once a block by document 01's row of scales.
ghost use Rattle.std.specs.Prelude.{◌≡◌, ◌≤◌, ◌*◌, ◌^◌};
ghost use Rattle.price.specs.Level.{shift_of, threshold};
ghost use Rattle.scaling.specs.Inner.Sound.{SoundNumbers};

use refusals::ranges::{Qp, Side};
use tables::scales::{error_scale, scale};

// q, b, 2^b and its half, and E. q·E and the rest are front·2^20, so that the error of magnitude 0 is worked out in 32
// bits; least is the smallest |c| whose m is above 0.
#[derive(Clone, Copy)]
pub struct Scale {
    pub q: u32,
    pub shift: u32,
    pub unit: u64,
    pub half: u64,
    pub error: u64,
    pub front: u32,
    pub rest: u32,
    pub least: u16,
    pub ghost sound: { SoundNumbers q shift unit half error front rest least },
}

impl Scale {
    ghost use Rattle.tables.specs.Scales.{forward};
    ghost use Rattle.price.specs.Level.{nearest};
    ghost use Rattle.scaling.specs.Inner.Scale.{ScaleOf};

    pub fn of(side: Side, qp: Qp) -> Scale
        ensures { ScaleOf forward side.log2 qp.qp result }
    {
        let l = side.log2 as u32;
        let q = scale(qp.qp);
        let shift = 19 - l + qp.qp / 6;
        let unit = 1 << shift;
        let half = 1 << (shift - 1);
        let error = error_scale(side, qp.qp) as u64;
        let front: u64 = 1 << (8 + l);
        let rest = front * 1048576 - q as u64 * error;
        let least = (half + q as u64 - 1) / q as u64;
        Scale {
            q,
            shift,
            unit,
            half,
            error,
            front: front as u32,
            rest: rest as u32,
            least: least as u16,
        }
    }

    // m of a magnitude |c|.
    pub fn rounded(self, c: u32) -> u64
        requires { c ≤ 32768 }
        ensures { (result ≡ nearest self.shift (c * self.q)) × (result ≤ 4194304) }
    {
        (c as u64 * self.q as u64 + self.half) >> self.shift
    }
}

// The quick skip clears a block in which every L is below this. It needs no more of the scale than b.
pub fn skip_threshold(side: Side, qp: Qp, intra_slice: bool) -> u64
    ensures { (result ≡ threshold intra_slice (shift_of side.log2 qp.qp)) × (1 ≤ result) × (result ≤ 2 ^ 28) }
{
    let unit: u64 = 1 << (19 - side.log2 as u32 + qp.qp / 6);
    let share = if intra_slice { 201 } else { 153 };
    unit - share * (unit / 512)
}
