// Symbols read: a list is looked through from its front before anything is written, and then the levels that it tells
// are put at their places. Whether something is wrong with it, and what the block then holds, is the definition's
// (`runs`).
#![tactic(auto)]

ghost use Rattle.std.specs.Prelude.{◌≡◌, false, ◌≤◌, ◌<◌, ◌*◌, ◌^◌, length, replicate, pos};
ghost use Rattle.runs.specs.Packing.{run_bits};
ghost use Rattle.runs.specs.Runs.{misread, level_of};
ghost use Rattle.runs.specs.Inner.Front.{wrong_here};
ghost use Rattle.squares.specs.Inner.Beside.{Square};
ghost use Rattle.reader.specs.Inner.Blocks.{laid_over};

use packing::{overfull, unpack};
use refusals::ranges::Side;
use runs::Symbol;
use scan::{Scan, put, scan_place};

// Whether a symbol is wrong where `left` places are left, and where it is the list's last or not.
fn wrong_here(u: u32, left: usize, final_: bool) -> bool
    ensures { result ≡ wrong_here run_bits left u final_ }
{
    let s = unpack(u);
    let empty = s.magnitude == 0;
    empty || overfull(u) || left <= s.run as usize || s.last != final_
}

// Whether the list has something wrong, for a block of n places.
pub fn misread(list: &[u32], n: usize) -> bool
    ensures { result ≡ misread run_bits n list.now }
{
    let mut left = n;
    for (i, u) in list.iter().enumerate() {
        if wrong_here(*u, left, i + 1 == list.len()) {
            return true;
        }
        left -= unpack(*u).run as usize + 1;
    }
    false
}

fn level_of(s: Symbol) -> i16
    requires { s.magnitude < 2 ^ 15 }
    ensures { result ≡ level_of s }
{
    let a = s.magnitude as i16;
    if s.negative { -a } else { a }
}

// Each level at its place, in a block that is 0 throughout.
fn lay(list: &[u32], scan: Scan, block: &mut [i16])
    requires { (misread run_bits (scan.w * scan.h) list.now ≡ false)
        × (block.old ≡ replicate (scan.w * scan.h) (pos 0)) }
    ensures { block.new ≡ laid_over scan.entry.w scan.entry.h list.now block.old }
{
    let mut p: usize = 0;
    for u in list {
        let s = unpack(*u);
        p += s.run as usize;
        put(block, scan.block_place(scan_place(p)), level_of(s));
        p += 1;
    }
}

// With a room of N places for the scan. It is as large as the blocks of a side need: to clear it takes time.
fn read_with<const N: usize>(list: &[u32], block: &mut [i16], log2_side: usize)
    requires square { Square log2_side block.old
        × (misread run_bits (2 ^ log2_side * 2 ^ log2_side) list.now ≡ false) }
    requires room { (length block.old ≤ N) × (N ≤ 1024) }
    ensures { block.new
        ≡ laid_over (2 ^ log2_side) (2 ^ log2_side) list.now block.old }
{
    let n = block.len();
    let mut room = [0u16; N];
    let scan = Scan::square(Side { log2: log2_side }, &mut room[..n]);
    block.fill(0);
    lay(list, scan, block);
}

pub fn read(list: &[u32], block: &mut [i16], log2_side: usize)
    requires { Square log2_side block.old
        × (misread run_bits (2 ^ log2_side * 2 ^ log2_side) list.now ≡ false) }
    ensures { block.new
        ≡ laid_over (2 ^ log2_side) (2 ^ log2_side) list.now block.old }
{
    if log2_side <= 3 {
        read_with::<64>(list, block, log2_side)
    } else {
        read_with::<1024>(list, block, log2_side)
    }
}
