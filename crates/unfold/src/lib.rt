// The butterflies of the inverse: a line of 2, 4 or 8 coefficients of 16 bits, handed over as the part of the block
// that it occupies, back to values; and the halves of longer lines. All sums are of 32 bits: whatever 16-bit numbers go
// in, they fit.
#![tactic(auto)]

ghost use Rattle.std.specs.Prelude.{◌≡◌, ℕ, ◌+◌, ◌^◌, ◌<◌, ◌≤◌, length, map, nat_abs, ◌*ℤ◌};
ghost use Rattle.integers.specs.Sum.{sum_ℤ, at};
ghost use Rattle.refusals.specs.Sides.{most_log2};
ghost use Rattle.tables.specs.Inner.OddRows.{odd_rows};
ghost use Rattle.unfold.specs.Inner.Back.{Parted, Halves, Spread, Back};

use butterfly::odd_half;
use refusals::ranges::Side;
use tables::number::Number;
use tables::odd_rows::OddRows;

// The even places of x and the odd ones; also of many lines at once, as each has an even length.
pub fn part(x: &[i16], e: &mut [i16], o: &mut [i16])
    requires { (length e.old + length e.old ≡ length x.now) × (length o.old ≡ length e.old) }
    ensures { Parted x.now e.new o.new }
{
    for k in 0..e.len() {
        e[k] = x[2 * k];
        o[k] = x[2 * k + 1];
    }
}

// The sum of 16 products.
pub fn dot16(t: &[i16], o: &[i16]) -> i32
    requires t_len { (length t.now ≡ 16) × (length o.now ≡ 16) }
    requires by_index { (k : ℕ) → k < 16 → nat_abs (at t.now k) ≤ 90 }
    ensures { result ≡ sum_ℤ 16 (λ k. at t.now k *ℤ at o.now k) }
{
    let mut sum = 0i32;
    for k in 0..16 {
        sum += i32::from(t[k]) * i32::from(o[k]);
    }
    sum
}

// The two halves of a line of side 2H: its even coefficients, and what the odd ones give.
pub fn halves<const H: usize>(t: &[i16], x: &[i16]) -> ([i16; H], [i32; H])
    ghost l: { ℕ }
    requires side { (H ≡ 2 ^ l) × (l < most_log2) × (map ⟦<i16 as Number>⟧.value t.now ≡ odd_rows H) }
    requires x_len { length x.now ≡ H + H }
    ensures { Halves l x.now result.0 result.1 }
{
    let mut e = [0i16; H];
    let mut o = [0i16; H];
    let mut b = [0i32; H];
    part(x, &mut e, &mut o);
    odd_half(t, &o, &mut b);
    (e, b)
}

// The values of the even half with what the odd one gives added, and from the end taken away.
fn spread(e: &[i32], b: &[i32], row: &mut [i32])
    requires b_len { (length b.now ≡ length e.now) × (length row.old ≡ length e.now + length e.now) }
    requires by_index { (n : ℕ) → n < length e.now → nat_abs (at e.now n) + nat_abs (at b.now n) < 2 ^ 31 }
    ensures { Spread e.now b.now row.new }
{
    let h = e.len();
    for n in 0..h {
        row[n] = e[n] + b[n];
        row[2 * h - 1 - n] = e[n] - b[n];
    }
}

pub fn back2(x: &[i16], row: &mut [i32])
    requires { (length x.now ≡ 2) × (length row.old ≡ 2) }
    ensures { Back 1 x.now row.new }
{
    let p = i32::from(x[0]);
    let q = i32::from(x[1]);
    row[0] = 64 * (p + q);
    row[1] = 64 * (p - q);
}

pub fn back4(rows: &OddRows<i16>, x: &[i16], row: &mut [i32])
    requires { (length x.now ≡ 4) × (length row.old ≡ 4) }
    ensures { Back 2 x.now row.new }
{
    let (e, b) = halves::<2>(&rows.two, x);
    let mut values = [0i32; 2];
    back2(&e, &mut values);
    spread(&values, &b, row);
}

pub fn back8(rows: &OddRows<i16>, x: &[i16], row: &mut [i32])
    requires { (length x.now ≡ 8) × (length row.old ≡ 8) }
    ensures { Back 3 x.now row.new }
{
    let (e, b) = halves::<4>(&rows.four, x);
    let mut values = [0i32; 4];
    back4(rows, &e, &mut values);
    spread(&values, &b, row);
}

// A line of a side that is no longer.
#[inline(always)]
pub fn back(side: Side, rows: &OddRows<i16>, x: &[i16], row: &mut [i32])
    requires { (side.log2 ≤ 3) × (length x.now ≡ 2 ^ side.log2) × (length row.old ≡ 2 ^ side.log2) }
    ensures { Back side.log2 x.now row.new }
{
    match side.log2 {
        1 => back2(x, row),
        2 => back4(rows, x, row),
        _ => back8(rows, x, row),
    }
}
