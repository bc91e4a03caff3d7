// How far a block, as the viewer makes it of its levels, lies from its residuals: the levels are decoded by the
// viewer's own arithmetic, and one pass over both finds the largest darkening and the largest lightening. The contracts
// cite the definitions of `heights`.
#![tactic(auto)]

ghost use Rattle.std.specs.Prelude.{◌≡◌, ◌*◌, ◌^◌, ◌≤◌, length};
ghost use Rattle.tables.specs.Scales.{back};
ghost use Rattle.heights.specs.Extremes.{above, darker, lighter, decoded, extremes};
ghost use Rattle.heights.specs.Call.{lent, measure_answer, measure_outcome};

use coefficients::skip::largest;
use heights::Extremes;
use refusals::Refusal;
use refusals::ranges::{Qp, Side};
use rescale::rescale;
use residuals::block::restore;

// a - b, 0 at least. It fits 16 bits without a sign, so that the compiler makes eight at a time.
fn above(a: i16, b: i16) -> u16
    ensures { result ≡ above a b }
{
    if b < a { a.abs_diff(b) } else { 0 }
}

// How far the samples lie apart at most, either way.
fn apart(residuals: &[i16], shown: &[i16]) -> Extremes
    requires { length residuals.now ≤ length shown.now }
    ensures { (result.darker ≡ darker (length residuals.now) residuals.now shown.now)
        × (result.lighter ≡ lighter (length residuals.now) residuals.now shown.now) }
{
    let mut darker: u16 = 0;
    let mut lighter: u16 = 0;
    for (r, s) in residuals.iter().zip(shown) {
        darker = darker.max(above(*r, *s));
        lighter = lighter.max(above(*s, *r));
    }
    Extremes {
        darker: u32::from(darker),
        lighter: u32::from(lighter),
    }
}

// Kept: a loop, no copy_from_slice: of two lent lists that is memmove, and memcpy and memset are all that the archive
// for C may ask of its host.
fn copy(from: &[i16], to: &mut [i16])
    requires { length from.now ≡ length to.old }
    ensures { to.new ≡ from.now }
{
    for (i, z) in from.iter().enumerate() {
        to[i] = *z;
    }
}

// What the viewer makes of the levels, in their copy.
fn decode(levels: &[i16], shown: &mut [i16], side: Side, qp: Qp)
    requires levels_len { (length levels.now ≡ 2 ^ side.log2 * 2 ^ side.log2)
        × (length shown.old ≡ length levels.now) }
    ensures { shown.new ≡ decoded back side.log2 qp.qp levels.now }
{
    copy(levels, shown);
    rescale(shown, side, qp);
    restore(shown, side, side);
}

// How far what the viewer makes of the levels lies from the residuals at most; `shown` is a room to decode in. Levels
// that are 0 throughout are what they are decoded to.
pub fn look(residuals: &[i16], levels: &[i16], shown: &mut [i16], side: Side, qp: Qp) -> Extremes
    requires { (length residuals.now ≡ 2 ^ side.log2 * 2 ^ side.log2)
        × (length levels.now ≡ length residuals.now) × (length shown.old ≡ length residuals.now) }
    ensures { result ≡ extremes back side.log2 qp.qp residuals.now levels.now }
{
    if largest(levels) == 0 {
        return apart(residuals, levels);
    }
    decode(levels, shown, side, qp);
    apart(residuals, shown)
}

// The two extremes of the square block at the front of either list.
#[tactic(auto, unfolding(heights::specs::Call::measure_answer))]
pub fn measure(
    residuals: &[i16],
    levels: &[i16],
    log2_side: usize,
    qp: u32,
) -> Result<Extremes, Refusal>
    ensures { measure_outcome result
        ≡ measure_answer (lent residuals.now levels.now log2_side qp) }
{
    let side = Side::try_from(log2_side)?;
    let qp = Qp::try_from(qp)?;
    let a = side.length();
    let n = a * a;
    if residuals.len() < n || levels.len() < n {
        return Err(Refusal::Length);
    }
    let mut shown = [0i16; 1024];
    Ok(look(&residuals[..n], &levels[..n], &mut shown[..n], side, qp))
}
