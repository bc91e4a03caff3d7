// The stages: each line of a list of lines is transformed and goes down its own column of the result, so that the
// second stage meets the columns of the first as its lines. Nothing is rounded: the result is the sums themselves.
#![tactic(auto)]

ghost use Rattle.std.specs.Prelude.{◌≡◌, ◌+◌, ◌*◌, ◌^◌, ◌<◌, ◌≤◌, length};
ghost use Rattle.integers.specs.Sum.{at};
ghost use Rattle.tables.specs.Matrix.{matrix};
ghost use Rattle.butterfly.specs.Inner.Lines.{Room};
ghost use Rattle.stages.specs.Inner.Stages.{Columns, Staged, stage_at};

use butterfly::{fold, line, line8, odd_half};
use columns::{store, store_row};
use refusals::ranges::Side;
use tables::odd_rows::wide_rows;

// The lines of a side of N.
fn each_line<const N: usize>(side: Side, lines: usize, src: &[i32], dst: &mut [i32])
    requires side { (N ≡ 2 ^ side.log2) × (lines ≤ 32) × Room side.log2 src.now }
    requires src_len { (length src.now ≡ lines * N) × (length dst.old ≡ N * lines) }
    ensures { Staged matrix (λ z. z) side.log2 lines src.now dst.new lines }
{
    let rows = wide_rows();
    for j in 0..lines {
        let a = j * N;
        let e = a + N;
        let mut row = [0i32; N];
        line(side, &rows, &src[a..e], &mut row);
        store_row(side, &row, dst, lines, j);
    }
}

// The odd coefficients of 16-point lines and, below, the even ones. In two loops the compiler takes several lines at a
// time.
fn odds16(lines: usize, src: &[i32], dst: &mut [i32])
    requires { (lines ≤ 32) × (length src.now ≡ lines * 16) × (length dst.old ≡ 16 * lines) × Room 4 src.now }
    ensures { Columns (λ j k. stage_at matrix 16 src.now j (2 * k + 1)) 8 (2 * lines) (λ j. lines + j)
        dst.new lines }
{
    let rows = wide_rows();
    for j in 0..lines {
        let a = j * 16;
        let z = a + 16;
        let mut e = [0i32; 8];
        let mut o = [0i32; 8];
        let mut b = [0i32; 8];
        fold(&src[a..z], &mut e, &mut o);
        odd_half(&rows.eight, &o, &mut b);
        store(&b, dst, 2 * lines, lines + j);
    }
}

fn evens16(lines: usize, src: &[i32], dst: &mut [i32])
    requires { (lines ≤ 32) × (length src.now ≡ lines * 16) × (length dst.old ≡ 16 * lines) × Room 4 src.now }
    ensures columns { Columns (λ j k. stage_at matrix 16 src.now j (2 * k)) 8 (2 * lines) (λ j. j)
        dst.new lines }
    ensures columns_2 { Columns (λ j k. at dst.old (k * (2 * lines) + (lines + j))) 8 (2 * lines)
        (λ j. lines + j) dst.new lines }
{
    let rows = wide_rows();
    for j in 0..lines {
        let a = j * 16;
        let z = a + 16;
        let mut e = [0i32; 8];
        let mut o = [0i32; 8];
        let mut row = [0i32; 8];
        fold(&src[a..z], &mut e, &mut o);
        line8(&rows, &e, &mut row);
        store_row(Side { log2: 3 }, &row, dst, 2 * lines, j);
    }
}

// The lines of a side, as many as `lines`.
pub fn stage(side: Side, lines: usize, src: &[i32], dst: &mut [i32])
    requires room { (lines ≤ 32) × Room side.log2 src.now }
    requires src_len { (length src.now ≡ lines * 2 ^ side.log2) × (length dst.old ≡ 2 ^ side.log2 * lines) }
    ensures { Staged matrix (λ z. z) side.log2 lines src.now dst.new lines }
{
    match side.log2 {
        1 => each_line::<2>(side, lines, src, dst),
        2 => each_line::<4>(side, lines, src, dst),
        3 => each_line::<8>(side, lines, src, dst),
        4 if lines == 2 => each_line::<16>(side, lines, src, dst),
        4 => {
            odds16(lines, src, dst);
            evens16(lines, src, dst);
        }
        _ => each_line::<32>(side, lines, src, dst),
    }
}
