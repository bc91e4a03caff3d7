// D, the sum of uncoded squares. Of any block it is added in parts, by 32-bit products: past 2^60 no longer, so that it
// cannot overflow; a part is as long as 63 bits hold its squares, each below 2^30·front².
ghost use Rattle.std.specs.Prelude.{◌≡◌, ◌≤◌, ◌*◌, ◌^◌, length};
ghost use Rattle.integers.specs.Sum.{over, on_ℕ};
ghost use Rattle.coefficients.specs.Inner.Coefficients.{Within, energy, zero_distortion, added, Held};

use scaling::scale::Scale;

fn squares(part: &[i16], scale: Scale) -> u64
    requires { (length part.now * (scale.front * scale.front) ≤ 2 ^ 33) × Within part.now 32767 }
    ensures { (result ≡ over on_ℕ (zero_distortion scale) part.now) × (result ≤ 2 ^ 63) }
{
    let mut sum: u64 = 0;
    for c in part {
        let a = u32::from(c.unsigned_abs());
        let x = u64::from(a * scale.front - (a * scale.rest + 1048575) / 1048576);
        sum += x * x;
    }
    sum
}

// D of a block whose squared coefficients come to at most 2^31, as those of a skipped block do, by three sums of 32
// bits: with y the part of an error that is rounded up, (|c|·front - y)² is front²·|c|² - 2·front·|c|·y + y². What is
// known to have 15 bits is multiplied four at a time.
pub fn small_squares(block: &[i16], scale: Scale) -> u64
    requires { Within block.now 32767 × (over on_ℕ energy block.now ≤ 2 ^ 31) }
    ensures { result ≡ over on_ℕ (zero_distortion scale) block.now }
{
    let rest = scale.rest % 32768;
    let mut aa: u32 = 0;
    let mut ay: u32 = 0;
    let mut yy: u32 = 0;
    for c in block {
        let a = u32::from(c.unsigned_abs()) % 32768;
        let y = (a * rest + 1048575) / 1048576;
        aa += a * a;
        ay += a * y;
        yy += y * y;
    }
    let front = u64::from(scale.front);
    front * front * u64::from(aa) + u64::from(yy) - 2 * front * u64::from(ay)
}

// How long a part may be: the whole block up to side 16, 128 places at side 32.
fn part_length(scale: Scale) -> usize
    ensures { (1 ≤ result) × (result * (scale.front * scale.front) ≤ 2 ^ 33) }
{
    let front = u64::from(scale.front);
    (8589934592 / (front * front)) as usize
}

// A sum that is added to until it is past 2^60.
fn add(d: u64, x: u64) -> u64
    requires { x ≤ 2 ^ 63 }
    ensures { result ≡ added d x }
{
    if d <= 1152921504606846976 { d + x } else { d }
}

pub fn uncoded(block: &[i16], scale: Scale) -> u64
    requires { Within block.now 32767 }
    ensures { Held (over on_ℕ (zero_distortion scale) block.now) result }
{
    let mut d: u64 = 0;
    for part in block.chunks(part_length(scale)) {
        d = add(d, squares(part, scale));
    }
    d
}
