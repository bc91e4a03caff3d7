// What became of the coefficients of a block: each level beside its rounded magnitude, and how many were kept, lowered
// and dropped.
#![tactic(auto)]

ghost use Rattle.std.specs.Prelude.{◌≡◌, ◌+◌, ◌≤◌};
ghost use Rattle.fates.specs.Fate.{fate_of, fate_at, counted, Most};

use refusals::ranges::{Qp, Side};
use scaling::scale::Scale;
use std::fmt::{Display, Formatter, Result, Write};
use std::ops::Add;

// Nothing: a level of 0 where the magnitude is 0 already. Other: what the quantiser never does.
#[derive(Clone, Copy)]
pub enum Fate {
    Nothing,
    Kept,
    Lowered,
    Dropped,
    Other,
}

// By the rounded magnitude and the level's.
#[tactic(auto, unfolding(crate::specs::Fate::fate_of))]
fn judged(m: u64, level: u64) -> Fate
    requires { level ≤ 32768 }
    ensures { result ≡ fate_of m level }
{
    match level {
        0 if m == 0 => Fate::Nothing,
        0 => Fate::Dropped,
        _ if level == m => Fate::Kept,
        _ if level + 1 == m => Fate::Lowered,
        _ => Fate::Other,
    }
}

// Of a coefficient c of a block of side 8.
pub fn became(c: i16, level: i16, qp: Qp) -> Fate
    ensures { result ≡ fate_at qp.qp c level }
{
    let m = Scale::of(Side { log2: 3 }, qp).rounded(u32::from(c.unsigned_abs()));
    judged(m, u64::from(level.unsigned_abs()))
}

// How many of each, but for Nothing.
#[derive(Clone, Copy, Default)]
pub struct Tally {
    pub kept: u64,
    pub lowered: u64,
    pub dropped: u64,
    pub other: u64,
}

impl Tally {
    // One fate more.
    pub fn counting(self, fate: Fate) -> Tally
        requires { Most 4095 self }
        ensures { result ≡ counted self fate }
    {
        let mut t = self;
        match fate {
            Fate::Nothing => {}
            Fate::Kept => t.kept += 1,
            Fate::Lowered => t.lowered += 1,
            Fate::Dropped => t.dropped += 1,
            Fate::Other => t.other += 1,
        }
        t
    }
}

// The fates of some blocks and of others.
impl Add for Tally {
    type Output = Tally;

    ghost can_add = { λ t more. Most 65536 t × Most 65536 more };

    ghost add_gives = { λ t more sum. (sum.kept ≡ t.kept + more.kept) × (sum.lowered ≡ t.lowered + more.lowered)
        × (sum.dropped ≡ t.dropped + more.dropped) × (sum.other ≡ t.other + more.other) };

    fn add(self, more: Tally) -> Tally {
        Tally {
            kept: self.kept + more.kept,
            lowered: self.lowered + more.lowered,
            dropped: self.dropped + more.dropped,
            other: self.other + more.other,
        }
    }
}

impl Display for Tally {
    fn fmt<W: Write>(&self, f: &mut Formatter<W>) -> Result {
        let Tally {
            kept,
            lowered,
            dropped,
            other,
        } = *self;
        write!(
            f,
            "kept {kept}, lowered {lowered}, dropped {dropped}, other {other}"
        )
    }
}
