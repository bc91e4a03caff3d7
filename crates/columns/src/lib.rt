// Columns of a grid: a list of numbers, or the row of a line in the order of its coefficients, goes down one column,
// and what stands in the other columns is kept.
#![tactic(auto)]

ghost use Rattle.std.specs.Prelude.{◌*◌, ◌^◌, ◌<◌, ◌≤◌, ◌≡◌, length, get_or};
ghost use Rattle.integers.specs.Sum.{at};
ghost use Rattle.butterfly.specs.Inner.Lines.{place};
ghost use Rattle.columns.specs.Inner.Placed.{PlacedOf, Placed};

use refusals::ranges::Side;

// Where coefficient k stands in a row of side 32; a row of a smaller side has it at k times 32 over the side.
const PLACES: [u8; 32] = [
    0, 16, 8, 17, 4, 18, 9, 19, 2, 20, 10, 21, 5, 22, 11, 23, 1, 24, 12, 25, 6, 26, 13, 27, 3, 28,
    14, 29, 7, 30, 15, 31,
];

// The numbers of b down column c of a grid.
pub fn store<T: Copy>(b: &[T], dst: &mut [T], width: usize, c: usize)
    requires { (c < width) × (length b.now * width ≤ length dst.old) }
    ensures { (d : T) → PlacedOf d width c (length b.now) (λ k. get_or b.now k d) dst.old dst.new }
{
    for (k, v) in b.iter().enumerate() {
        dst[k * width + c] = *v;
    }
}

// The coefficients of a row in their own order, down column c of a grid.
pub fn store_row(side: Side, row: &[i32], dst: &mut [i32], width: usize, c: usize)
    requires { (length row.now ≡ 2 ^ side.log2) × (c < width) × (2 ^ side.log2 * width ≤ length dst.old) }
    ensures { Placed width c (2 ^ side.log2) (λ k. at row.now (place side.log2 k)) dst.old dst.new }
{
    let places = PLACES;
    let n = row.len();
    let step = 32 / n;
    for k in 0..n {
        let p = places[k * step] as usize;
        let v = row[p];
        dst[k * width + c] = v;
    }
}
