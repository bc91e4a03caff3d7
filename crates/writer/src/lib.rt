// Symbols written: the levels of a block that are not 0 are counted by rows, and then their symbols are stored in scan
// order, up to the last of them. What the list then holds is the definition's (`runs`), over what it held.
#![tactic(auto)]

ghost use Rattle.std.specs.Prelude.{◌≡◌, ◌≤◌, ◌*◌, ◌^◌, length};
ghost use Rattle.scan.specs.Order.{in_order};
ghost use Rattle.runs.specs.Runs.{nonzeros, symbol_of};
ghost use Rattle.squares.specs.Inner.Beside.{Square};
ghost use Rattle.writer.specs.Inner.Lists.{Writable, written_over};

use packing::pack;
use refusals::ranges::Side;
use runs::Symbol;
use scan::{Scan, scan_place, value_at};

// How many levels are not 0. They are counted in 16 bits, so that the compiler counts eight at a time.
pub fn count_levels(block: &[i16]) -> usize
    requires { length block.now ≤ 4096 }
    ensures { result ≡ nonzeros block.now }
{
    let mut count: u16 = 0;
    for level in block {
        if *level != 0 {
            count += 1;
        }
    }
    usize::from(count)
}

// The symbol of a level that stands behind so many zeros. What it is of a level that is 0 says nothing.
fn symbol_of(level: i16, run: u32, last: bool) -> Symbol
    ensures { result ≡ symbol_of run level last }
{
    Symbol {
        run,
        magnitude: u32::from(level.unsigned_abs()),
        negative: level < 0,
        last,
    }
}

// The symbols of a block that has `count` of them. A place is stored at every turn, without a branch: what a level that
// is 0 leaves there is stored over by the next symbol, as there is one.
fn write_in(block: &[i16], scan: Scan, list: &mut [u32], count: usize)
    requires room { (length block.now ≡ scan.w * scan.h) × Writable block.now }
    requires count_value { (count ≡ nonzeros (in_order scan.w scan.h block.now)) × (count ≤ length list.old) }
    ensures { list.new ≡ written_over scan.entry.w scan.entry.h block.now list.old count }
{
    let mut run: u32 = 0;
    let mut p: usize = 0;
    let mut k: usize = 0;
    // Kept: `while`: it ends with the last symbol, at whatever place; a `for` over the places needs a way out for that.
    while k < count {
        let level = value_at(block, scan.block_place(scan_place(p)));
        list[k] = pack(symbol_of(level, run, k + 1 == count));
        if level == 0 {
            run += 1;
        } else {
            run = 0;
            k += 1;
        }
        p += 1;
    }
}

// With a room of N places for the scan. It is as large as the blocks of a side need: to clear it takes time.
fn write_with<const N: usize>(block: &[i16], log2_side: usize, list: &mut [u32], count: usize)
    requires square { Square log2_side block.now × Writable block.now }
    requires room { (length block.now ≤ N) × (N ≤ 1024) }
    requires count_value { (count ≡ nonzeros block.now) × (count ≤ length list.old) }
    ensures { list.new
        ≡ written_over (2 ^ log2_side) (2 ^ log2_side) block.now list.old count }
{
    let n = block.len();
    let mut room = [0u16; N];
    let scan = Scan::square(Side { log2: log2_side }, &mut room[..n]);
    write_in(block, scan, list, count);
}

pub fn write(block: &[i16], log2_side: usize, list: &mut [u32], count: usize)
    requires square { Square log2_side block.now × Writable block.now }
    requires count_value { (count ≡ nonzeros block.now) × (count ≤ length list.old) }
    ensures { list.new
        ≡ written_over (2 ^ log2_side) (2 ^ log2_side) block.now list.old count }
{
    if log2_side <= 3 {
        write_with::<64>(block, log2_side, list, count)
    } else {
        write_with::<1024>(block, log2_side, list, count)
    }
}
