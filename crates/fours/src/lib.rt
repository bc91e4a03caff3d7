// The last stage of a block with a side of 4. Its sums are of 64 bits, one line at a time, and become residuals at
// once: no number has to be split for it.
#![tactic(auto)]

ghost use Rattle.std.specs.Prelude.{◌≡◌, ℕ, ◌+◌, ◌*◌, ◌^◌, ◌<◌, ◌≤◌, length, nat_abs};
ghost use Rattle.integers.specs.Sum.{at};
ghost use Rattle.integers.specs.Floor.{rounded};
ghost use Rattle.integers.specs.Clip.{clipped};
ghost use Rattle.unfold.specs.Inner.Back.{Within, most_value};
ghost use Rattle.fours.specs.Inner.Last.{last_of, last_at};

use columns::store;

// The residual of a sum: rounded and clipped.
fn settle(z: i64) -> i16
    requires { nat_abs z ≤ 2 ^ 40 }
    ensures { result ≡ clipped (rounded z 17) }
{
    ((z + 65536) >> 17).clamp(-32768, 32767) as i16
}

// Four sums become four residuals.
fn last(x: &[i32]) -> [i16; 4]
    requires { (length x.now ≡ 4) × Within most_value x.now }
    ensures { (n : ℕ) → n < 4 → at result n ≡ last_of (at x.now) n }
{
    let a = i64::from(x[0]);
    let b = i64::from(x[1]);
    let c = i64::from(x[2]);
    let d = i64::from(x[3]);
    let p = 64 * (a + c);
    let q = 64 * (a - c);
    let r = 84 * b + 35 * d;
    let s = 35 * b - 84 * d;
    [settle(p + r), settle(q + s), settle(q - s), settle(p - r)]
}

// A block 4 high: line j of the sums becomes column j of the block, which is n wide.
pub fn last_columns(n: usize, x: &[i32], block: &mut [i16])
    requires { (n ≤ 32) × (length x.now ≡ n * 4) × (length block.old ≡ 4 * n) × Within most_value x.now }
    ensures { (j k : ℕ) → j < n → k < 4 → at block.new (k * n + j) ≡ last_at x.now j k }
{
    for j in 0..n {
        let a = j * 4;
        let e = a + 4;
        let residuals = last(&x[a..e]);
        store(&residuals, block, n, j);
    }
}

// A block 4 wide: line j of the sums becomes row j of the block, which is n high.
pub fn last_rows(n: usize, x: &[i32], block: &mut [i16])
    requires { (n ≤ 32) × (length x.now ≡ n * 4) × (length block.old ≡ n * 4) × Within most_value x.now }
    ensures { (j k : ℕ) → j < n → k < 4 → at block.new (j * 4 + k) ≡ last_at x.now j k }
{
    for j in 0..n {
        let a = j * 4;
        let e = a + 4;
        let residuals = last(&x[a..e]);
        block[a..e].copy_from_slice(&residuals);
    }
}

// The columns of a block 4 wide and n high, one after the other.
pub fn turn(block: &[i16], n: usize, turned: &mut [i16])
    requires { (n ≤ 32) × (length block.now ≡ n * 4) × (length turned.old ≡ 4 * n) }
    ensures { (j k : ℕ) → j < 4 → k < n
        → at turned.new (j * n + k) ≡ at block.now (k * 4 + j) }
{
    for k in 0..n {
        let a = k * 4;
        let e = a + 4;
        store(&block[a..e], turned, n, k);
    }
}
