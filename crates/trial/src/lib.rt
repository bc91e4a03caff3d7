// One candidate of a guarded block tried: magnitudes put back to m, the price of what they make, the levels that they
// stand for, and whether what the viewer makes of these lies within the heights.
#![tactic(auto)]

ghost use Rattle.std.specs.Prelude.{◌≡◌, map, ℕ, ◌≤◌, length, get_or};
ghost use Rattle.price.specs.Price.{nonzeros};
ghost use Rattle.finished.specs.Inner.Finished.{Priceable};
ghost use Rattle.trial.specs.Inner.Whole.{Whole, Rooms};
ghost use Rattle.trial.specs.Inner.Trial.{top_by, levels_by, TriedAs};

use finished::price_of;
use guarding::Guarded;
use heights::Heights;
use measure::look;
use order::spread;
use refusals::ranges::{Qp, Side};
use scaling::scale::Scale;
use scan::Scan;
use signs::put_signs;
use weights::Weights;

// A price from here on, 2^62, is not worked out further: it fits nowhere.
const DEAR: u64 = 4611686018427387904;

// What the candidates of a block are tried by: what its places are weighed by, log2 of its side, its QP, and its
// heights.
#[derive(Clone, Copy)]
pub struct Terms {
    pub weights: Weights,
    pub log2: usize,
    pub qp: u32,
    pub heights: Heights,
}

// The block that they are candidates of: its residuals and their coefficients, by rows; its scan, and the |c| along it.
#[derive(Clone, Copy)]
pub struct Block<'a, 's> {
    pub terms: Terms,
    pub residuals: &'a [i16],
    pub coefs: &'a [i16],
    pub scan: Scan<'s>,
    pub places: &'a [u16],
    pub ghost whole: { Whole terms.log2 terms.qp scan.w scan.h residuals.now coefs.now places.now },
}

// m of each |c|.
pub fn put_back(ms: &mut [u16], places: &[u16], scale: Scale)
    requires { (length ms.old ≡ length places.now) × ((k : ℕ) → get_or places.now k 0 ≤ 32768)
        × ((k : ℕ) → top_by scale (get_or places.now k 0) ≤ 32767) }
    ensures { ms.new ≡ map (top_by scale) places.now }
{
    for (i, c) in places.iter().enumerate() {
        ms[i] = scale.rounded(u32::from(*c)) as u16;
    }
}

impl<'a, 's> Block<'a, 's> {
    // The levels of magnitudes in scan order, by rows; how many are not 0.
    fn write_levels(self, ms: &[u16], levels: &mut [i16], rows: &mut [u16]) -> u32
        requires magnitudes { (length ms.now ≡ length self.residuals.now)
            × ((k : ℕ) → get_or ms.now k 0 ≤ 32767) }
        requires rooms { (length levels.old ≡ length self.residuals.now)
            × (length rows.old ≡ length self.residuals.now) }
        ensures { (levels.new ≡ levels_by self.entry.terms.log2 self.entry.coefs.now ms.now)
            × (result ≡ nonzeros ms.now) }
    {
        spread(ms, self.scan, rows);
        levels.copy_from_slice(self.coefs);
        put_signs(levels, rows)
    }

    // What a candidate comes to, where it fits. Its levels are left in either case.
    pub fn try_one(
        self,
        ms: &[u16],
        levels: &mut [i16],
        shown: &mut [i16],
        rows: &mut [u16],
    ) -> Option<Guarded>
        requires priceable { Priceable self.terms.weights.prices self.terms.weights.scale ms.now self.places.now }
        requires rooms { Rooms (length self.residuals.now) (length levels.old) (length shown.old) (length rows.old) }
        ensures { TriedAs self.entry.terms self.entry.residuals.now self.entry.coefs.now self.entry.places.now
            ms.now levels.new result }
    {
        let terms = self.terms;
        let price = price_of(ms, self.places, terms.weights);
        if DEAR <= price {
            return None;
        }
        let count = self.write_levels(ms, levels, rows);
        let side = Side { log2: terms.log2 };
        let qp = Qp { qp: terms.qp };
        let off = look(self.residuals, levels, shown, side, qp);
        let most = terms.heights;
        if most.darker < off.darker || most.lighter < off.lighter {
            return None;
        }
        Some(Guarded {
            count,
            price,
            darker: off.darker,
            lighter: off.lighter,
        })
    }
}
