// The second stage of a block of 32 by 32, whose sums may need a bit more than 32 have: it yields their halves. Where a
// line is small enough its sums are halved; a larger line is cut into its halves and what is left of them, and each
// part is transformed.
#![tactic(auto)]

ghost use Rattle.std.specs.Prelude.{◌≡◌, ℕ, ◌+◌, ◌*◌, ◌^◌, ◌<◌, ◌≤◌, length, nat_abs, ◌+ℤ◌};
ghost use Rattle.integers.specs.Sum.{at};
ghost use Rattle.integers.specs.Tests.{some};
ghost use Rattle.tables.specs.Matrix.{matrix};
ghost use Rattle.butterfly.specs.Inner.Lines.{line_at, place};
ghost use Rattle.stages.specs.Inner.Stages.{Staged};
ghost use Rattle.halves.specs.Inner.Halves.{beyond, half, over};

use butterfly::line32;
use columns::store_row;
use refusals::ranges::Side;
use tables::odd_rows::{OddRows, wide_rows};

// Whether a value is too large for the sums of its line.
fn large(line: &[i32]) -> bool
    ensures { result ≡ some (beyond 1047552) line.now }
{
    let mut found = false;
    // Kept: `any` takes one value at a time, ten times slower; a test of magnitudes is 1.6 times slower.
    for v in line {
        found |= (*v < -1047552) | (1047552 < *v);
    }
    found
}

fn halve(x: &[i32], h: &mut [i32])
    requires { length h.old ≡ length x.now }
    ensures { (i : ℕ) → i < length x.now → at h.new i ≡ half (at x.now i) }
{
    for i in 0..x.len() {
        h[i] = x[i] >> 1;
    }
}

// What x has over twice its halves: 0 or 1.
fn leave(x: &[i32], h: &[i32], v: &mut [i32])
    requires h_len { (length h.now ≡ length x.now) × (length v.old ≡ length x.now) }
    requires by_index { (i : ℕ) → i < length x.now → (at h.now i ≡ half (at x.now i))
        × (nat_abs (at x.now i) ≤ 2 ^ 29) }
    ensures { (i : ℕ) → i < length x.now → at v.new i ≡ over (at x.now i) }
{
    for i in 0..x.len() {
        v[i] = x[i] - h[i] - h[i];
    }
}

fn join(p: &[i32], q: &[i32], row: &mut [i32])
    requires q_len { (length q.now ≡ length p.now) × (length row.old ≡ length p.now) }
    requires by_index { (i : ℕ) → i < length p.now → nat_abs (at p.now i) + nat_abs (at q.now i) < 2 ^ 31 }
    ensures { (i : ℕ) → i < length p.now
        → at row.new i ≡ at p.now i +ℤ half (at q.now i) }
{
    for i in 0..p.len() {
        row[i] = p[i] + (q[i] >> 1);
    }
}

fn small_line(rows: &OddRows<i32>, x: &[i32], row: &mut [i32])
    requires { (length x.now ≡ 32) × (length row.old ≡ 32)
        × ((i : ℕ) → i < 32 → nat_abs (at x.now i) ≤ 1047552) }
    ensures { (k : ℕ) → k < 32 → at row.new (place 5 k)
        ≡ half (line_at matrix 32 x.now k) }
{
    let mut y = [0i32; 32];
    line32(rows, x, &mut y);
    halve(&y, row);
}

fn large_line(rows: &OddRows<i32>, x: &[i32], row: &mut [i32])
    requires { (length x.now ≡ 32) × (length row.old ≡ 32)
        × ((i : ℕ) → i < 32 → nat_abs (at x.now i) ≤ 2095104) }
    ensures { (k : ℕ) → k < 32 → at row.new (place 5 k)
        ≡ half (line_at matrix 32 x.now k) }
{
    let mut u = [0i32; 32];
    let mut v = [0i32; 32];
    let mut p = [0i32; 32];
    let mut q = [0i32; 32];
    halve(x, &mut u);
    leave(x, &u, &mut v);
    line32(rows, &u, &mut p);
    line32(rows, &v, &mut q);
    join(&p, &q, row);
}

fn half_line(rows: &OddRows<i32>, x: &[i32], row: &mut [i32])
    requires { (length x.now ≡ 32) × (length row.old ≡ 32)
        × ((i : ℕ) → i < 32 → nat_abs (at x.now i) ≤ 2095104) }
    ensures { (k : ℕ) → k < 32 → at row.new (place 5 k)
        ≡ half (line_at matrix 32 x.now k) }
{
    if large(x) {
        large_line(rows, x, row);
    } else {
        small_line(rows, x, row);
    }
}

// The halves of the coefficients of 32 lines, each down its own column.
pub fn half_stage(src: &[i32], dst: &mut [i32])
    requires { (length src.now ≡ 1024) × (length dst.old ≡ 1024)
        × ((i : ℕ) → i < 1024 → nat_abs (at src.now i) ≤ 2095104) }
    ensures { Staged matrix half 5 32 src.now dst.new 32 }
{
    let rows = wide_rows();
    for j in 0..32 {
        let a = j * 32;
        let e = a + 32;
        let mut row = [0i32; 32];
        half_line(&rows, &src[a..e], &mut row);
        store_row(Side { log2: 5 }, &row, dst, 32, j);
    }
}
