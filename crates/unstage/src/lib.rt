// A stage of the inverse transform: every line of a block of 16-bit numbers back to values, each down a column of its
// own, so that the columns of the first stage are the lines of the second. Lines of 16 and 32 go by halves, in loops of
// their own, in which the compiler takes several lines at a time.
#![tactic(auto)]

ghost use Rattle.std.specs.Prelude.{◌≡◌, ℕ, ◌+◌, ◌-◌, ◌*◌, ◌^◌, ◌<◌, ◌≤◌, length, nat_abs};
ghost use Rattle.integers.specs.Sum.{at};
ghost use Rattle.columns.specs.Inner.Placed.{Placed};
ghost use Rattle.unfold.specs.Inner.Back.{Within, odd_at};
ghost use Rattle.tables.specs.Matrix.{matrix};
ghost use Rattle.unstage.specs.Inner.Rows.{Values, Small, Evens, Odds, Unfolded, RowsUnfolded};

use columns::store;
use refusals::ranges::Side;
use tables::odd_rows::{OddRows, narrow_rows};
use unfold::{back, back8, dot16, halves, part};

// The lines of side N, where that is 8 at most.
fn each_line<const N: usize>(side: Side, lines: usize, src: &[i16], dst: &mut [i32])
    requires side { (N ≡ 2 ^ side.log2) × (side.log2 ≤ 3) × (lines ≤ 32) }
    requires src_len { (length src.now ≡ lines * N) × (length dst.old ≡ N * lines) }
    ensures { Values side.log2 lines src.now dst.new }
{
    let rows = narrow_rows();
    for j in 0..lines {
        let a = j * N;
        let e = a + N;
        let mut row = [0i32; N];
        back(side, &rows, &src[a..e], &mut row);
        store(&row, dst, lines, j);
    }
}

// The numbers of b down column c of a grid, the last first.
fn store_up(b: &[i32], dst: &mut [i32], width: usize, c: usize)
    requires { (c < width) × (length b.now * width ≤ length dst.old) }
    ensures { Placed width c (length b.now)
        (λ k. at b.now (length b.now - 1 - k)) dst.old dst.new }
{
    let n = b.len();
    for k in 0..n {
        dst[k * width + c] = b[n - 1 - k];
    }
}

// What the odd coefficients of lines of 16 give, and below, the even ones.
fn odds16(lines: usize, src: &[i16], dst: &mut [i32])
    requires { (lines ≤ 32) × (length src.now ≡ lines * 16) × (length dst.old ≡ 8 * lines) }
    ensures odds { Odds 8 lines (λ j k. at src.now (j * 16 + (2 * k + 1))) dst.new }
    ensures small { Small 16 src.now lines }
{
    let rows = narrow_rows();
    for j in 0..lines {
        let a = j * 16;
        let z = a + 16;
        let (_evens, b) = halves::<8>(&rows.eight, &src[a..z]);
        store_up(&b, dst, lines, j);
    }
}

fn evens16(lines: usize, src: &[i16], dst: &mut [i32])
    requires { (lines ≤ 32) × (length src.now ≡ lines * 16) × (length dst.old ≡ 8 * lines) }
    ensures { Evens 8 lines src.now dst.new }
{
    let rows = narrow_rows();
    for j in 0..lines {
        let a = j * 16;
        let z = a + 16;
        let mut e = [0i16; 8];
        let mut o = [0i16; 8];
        let mut row = [0i32; 8];
        part(&src[a..z], &mut e, &mut o);
        back8(&rows, &e, &mut row);
        store(&row, dst, lines, j);
    }
}

// Two rows of a grid become their sum and their difference.
fn unfold_row(dst: &mut [i32], a: usize, c: usize, m: usize)
    requires m_bound { (a + m ≤ c) × (c + m ≤ length dst.old) }
    requires by_index { (i : ℕ) → i < m
        → (nat_abs (at dst.old (a + i)) ≤ 2 ^ 29) × (nat_abs (at dst.old (c + i)) ≤ 2 ^ 29) }
    ensures { RowsUnfolded a c m dst.old dst.new }
{
    for i in 0..m {
        let p = dst[a + i];
        let q = dst[c + i];
        dst[a + i] = p + q;
        dst[c + i] = p - q;
    }
}

// The rows of the first half and those of the second, from the last up, become their sums and their differences.
fn unfold_rows(h: usize, lines: usize, dst: &mut [i32])
    requires { (h ≤ 16) × (lines ≤ 32) × (length dst.old ≡ (h + h) * lines) × Within (2 ^ 29) dst.old }
    ensures { Unfolded h lines dst.old dst.new }
{
    for n in 0..h {
        let a = n * lines;
        let c = (2 * h - 1 - n) * lines;
        unfold_row(dst, a, c, lines);
    }
}

fn lines16(lines: usize, src: &[i16], dst: &mut [i32])
    requires { (lines ≤ 32) × (length src.now ≡ lines * 16) × (length dst.old ≡ 16 * lines) }
    ensures { Values 4 lines src.now dst.new }
{
    let m = 8 * lines;
    odds16(lines, src, &mut dst[m..]);
    evens16(lines, src, &mut dst[..m]);
    unfold_rows(8, lines, dst);
}

// What the odd coefficients o of one line of 32 give, down column c, the last first: a product at a time.
fn dots(rows: &OddRows<i16>, o: &[i16], dst: &mut [i32], lines: usize, c: usize)
    requires { (c < lines) × (length o.now ≡ 16) × (16 * lines ≤ length dst.old) }
    ensures { Placed lines c 16 (λ k. odd_at matrix 16 (at o.now) (15 - k)) dst.old
        dst.new }
{
    for k in 0..16 {
        let r = (15 - k) * 16;
        let e = r + 16;
        dst[k * lines + c] = dot16(&rows.sixteen[r..e], o);
    }
}

// What the odd coefficients of lines of 32 give; os has them, 16 a line.
fn odds32(lines: usize, os: &[i16], dst: &mut [i32])
    requires { (lines ≤ 32) × (length os.now ≡ lines * 16) × (length dst.old ≡ 16 * lines)
        × Within 32768 os.now }
    ensures { Odds 16 lines (λ j k. at os.now (j * 16 + k)) dst.new }
{
    let rows = narrow_rows();
    for j in 0..lines {
        let a = j * 16;
        let e = a + 16;
        dots(&rows, &os[a..e], dst, lines, j);
    }
}

// Lines of 32 in two lists, which get their even and their odd coefficients.
fn halves32(lines: usize, src: &[i16], es: &mut [i16], os: &mut [i16], dst: &mut [i32])
    requires lines_bound { (lines ≤ 32) × (length src.now ≡ lines * 32) × (length dst.old ≡ 32 * lines) }
    requires es_len { (length es.old ≡ lines * 16) × (length os.old ≡ lines * 16) }
    ensures { Values 5 lines src.now dst.new }
{
    let m = 16 * lines;
    part(src, es, os);
    odds32(lines, os, &mut dst[m..]);
    lines16(lines, es, &mut dst[..m]);
    unfold_rows(16, lines, dst);
}

fn lines32(lines: usize, src: &[i16], dst: &mut [i32])
    requires { (lines ≤ 32) × (length src.now ≡ lines * 32) × (length dst.old ≡ 32 * lines) }
    ensures { Values 5 lines src.now dst.new }
{
    let mut es = [0i16; 512];
    let mut os = [0i16; 512];
    let m = 16 * lines;
    halves32(lines, src, &mut es[..m], &mut os[..m], dst);
}

// The lines of a side, as many as `lines`.
pub fn unstage(side: Side, lines: usize, src: &[i16], dst: &mut [i32])
    requires src_len { (lines ≤ 32) × (length src.now ≡ lines * 2 ^ side.log2)
        × (length dst.old ≡ 2 ^ side.log2 * lines) }
    ensures { Values side.log2 lines src.now dst.new }
{
    match side.log2 {
        1 => each_line::<2>(side, lines, src, dst),
        2 => each_line::<4>(side, lines, src, dst),
        3 => each_line::<8>(side, lines, src, dst),
        4 => lines16(lines, src, dst),
        _ => lines32(lines, src, dst),
    }
}
