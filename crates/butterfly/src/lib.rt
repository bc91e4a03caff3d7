// The butterflies: the transform of one line of 2 to 32 values, handed over as the part of the block that it occupies.
// A row then holds its coefficients in the order in which they arise. All sums are of 32 bits; the contracts say how
// large a value may be for that.
#![tactic(auto)]

ghost use Rattle.std.specs.Prelude.{◌≡◌, ℕ, suc, ◌+◌, ◌*◌, ◌^◌, ◌<◌, ◌≤◌, length, map, pos, nat_abs, ◌+ℤ◌, ◌*ℤ◌};
ghost use Rattle.integers.specs.Sum.{at};
ghost use Rattle.refusals.specs.Sides.{most_log2};
ghost use Rattle.tables.specs.Matrix.{matrix};
ghost use Rattle.tables.specs.Inner.OddRows.{odd_rows};
ghost use Rattle.butterfly.specs.Inner.Lines.{Folded, gained, spent, Halved, Row, Room};

use refusals::ranges::Side;
use tables::number::Number;
use tables::odd_rows::OddRows;

// The sums and the differences of the values that stand equally far from the two ends of x.
pub fn fold(x: &[i32], e: &mut [i32], o: &mut [i32])
    requires e_len { (length e.old + length e.old ≡ length x.now) × (length o.old ≡ length e.old) }
    requires by_index { (i : ℕ) → i < length x.now → nat_abs (at x.now i) ≤ 2 ^ 29 }
    ensures { Folded x.now e.new o.new }
{
    let n = x.len();
    let h = e.len();
    for k in 0..h {
        let p = x[k];
        let q = x[n - 1 - k];
        e[k] = p + q;
        o[k] = p - q;
    }
}

// Adds v times t to b.
fn add_times<T: Number>(t: &[T], v: T, b: &mut [i32])
    requires t_len { length t.now ≡ length b.old }
    requires by_index { (k : ℕ) → k < length b.old
        → nat_abs (at b.old k) + nat_abs (at (map T.value t.now) k) * nat_abs (T.value v) < 2 ^ 31 }
    ensures { (k : ℕ) → k < length b.old
        → at b.new k ≡ at b.old k +ℤ at (map T.value t.now) k *ℤ T.value v }
{
    let z = v.wide();
    for k in 0..b.len() {
        b[k] += t[k].wide() * z;
    }
}

// The odd half of a line from what stands at its odd places, or from its differences: each of them times its column of
// the odd rows.
pub fn odd_half<T: Number>(t: &[T], o: &[T], b: &mut [i32])
    requires o_len { (length o.now ≡ length b.old) × (length o.now ≤ 16)
        × (length o.now * length o.now ≤ length t.now) }
    requires by_index { (k : ℕ) → at b.old k ≡ pos 0 }
    requires by_index_2 { (k : ℕ) → k < length b.old
        → spent (map T.value t.now) (map T.value o.now) (length o.now) k < 2 ^ 31 }
    ensures { (k : ℕ) → k < length b.old
        → at b.new k ≡ gained (map T.value t.now) (map T.value o.now) (length o.now) k }
{
    let h = o.len();
    for n in 0..h {
        let r = n * h;
        let e = r + h;
        add_times(&t[r..e], o[n], b);
    }
}

// One level of a line x of side 2H: its odd coefficients go behind H places of the row, and what comes back are the
// sums, whose coefficients are the even ones.
fn one_level<const H: usize>(t: &[i32], x: &[i32], row: &mut [i32]) -> [i32; H]
    ghost l: { ℕ }
    requires side { (H ≡ 2 ^ l) × (l < most_log2) × (map ⟦<i32 as Number>⟧.value t.now ≡ odd_rows H) }
    requires x_len { (length x.now ≡ H + H) × (H + H ≤ length row.old) × Room (suc l) x.now }
    ensures { Halved matrix l x.now result row.old row.new }
{
    let mut e = [0i32; H];
    let mut o = [0i32; H];
    let mut b = [0i32; H];
    fold(x, &mut e, &mut o);
    odd_half(t, &o, &mut b);
    row[H..H + H].copy_from_slice(&b);
    e
}

fn line2(x: &[i32], row: &mut [i32])
    requires { (length x.now ≡ 2) × (2 ≤ length row.old) × Room 1 x.now }
    ensures { Row matrix 1 x.now row.old row.new }
{
    let p = x[0];
    let q = x[1];
    row[0] = 64 * (p + q);
    row[1] = 64 * (p - q);
}

fn line4(rows: &OddRows<i32>, x: &[i32], row: &mut [i32])
    requires { (length x.now ≡ 4) × (4 ≤ length row.old) × Room 2 x.now }
    ensures { Row matrix 2 x.now row.old row.new }
{
    let e: [i32; 2] = one_level(&rows.two, x, row);
    line2(&e, row);
}

#[inline(always)]
pub fn line8(rows: &OddRows<i32>, x: &[i32], row: &mut [i32])
    requires { (length x.now ≡ 8) × (8 ≤ length row.old) × Room 3 x.now }
    ensures { Row matrix 3 x.now row.old row.new }
{
    let e: [i32; 4] = one_level(&rows.four, x, row);
    line4(rows, &e, row);
}

fn line16(rows: &OddRows<i32>, x: &[i32], row: &mut [i32])
    requires { (length x.now ≡ 16) × (16 ≤ length row.old) × Room 4 x.now }
    ensures { Row matrix 4 x.now row.old row.new }
{
    let e: [i32; 8] = one_level(&rows.eight, x, row);
    line8(rows, &e, row);
}

pub fn line32(rows: &OddRows<i32>, x: &[i32], row: &mut [i32])
    requires { (length x.now ≡ 32) × (32 ≤ length row.old) × Room 5 x.now }
    ensures { Row matrix 5 x.now row.old row.new }
{
    let e: [i32; 16] = one_level(&rows.sixteen, x, row);
    line16(rows, &e, row);
}

// The line of a side.
#[inline(always)]
pub fn line(side: Side, rows: &OddRows<i32>, x: &[i32], row: &mut [i32])
    requires { (length x.now ≡ 2 ^ side.log2) × (2 ^ side.log2 ≤ length row.old) × Room side.log2 x.now }
    ensures { Row matrix side.log2 x.now row.old row.new }
{
    match side.log2 {
        1 => line2(x, row),
        2 => line4(rows, x, row),
        3 => line8(rows, x, row),
        4 => line16(rows, x, row),
        _ => line32(rows, x, row),
    }
}
