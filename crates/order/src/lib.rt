// Magnitudes of a block, and the two orders in which they stand: by rows, and along the scan. Taken from one to the
// other and back, each is the place's own (specs/Inner/Places.antt of `weights`).
#![tactic(auto)]

ghost use Rattle.std.specs.Prelude.{◌≡◌, map, ◌≤◌, ◌*◌, length, nat_abs};
ghost use Rattle.coefficients.specs.Inner.Coefficients.{Within};
ghost use Rattle.weights.specs.Inner.Places.{in_scan, Standing};

use scan::{Scan, put, scan_place, value_at};

// |z| of each sample.
pub fn magnitudes(block: &[i16], out: &mut [u16])
    requires { (length out.old ≡ length block.now) × (length block.now ≤ 4096) }
    ensures { (out.new ≡ map nat_abs block.now)
        × Within block.now 32768 }
{
    for (i, z) in block.iter().enumerate() {
        out[i] = z.unsigned_abs();
    }
}

// Magnitudes by rows, in scan order.
pub fn gather(rows: &[u16], scan: Scan, out: &mut [u16])
    requires { (length rows.now ≡ scan.w * scan.h) × (length out.old ≡ scan.w * scan.h) }
    ensures { out.new ≡ in_scan scan.entry.w scan.entry.h rows.now }
{
    for n in 0..out.len() {
        out[n] = value_at(rows, scan.block_place(scan_place(n)));
    }
}

// Magnitudes in scan order, by rows.
pub fn spread(ms: &[u16], scan: Scan, rows: &mut [u16])
    requires { (length ms.now ≡ scan.w * scan.h) × (length rows.old ≡ scan.w * scan.h) }
    ensures { (length rows.new ≡ scan.entry.w * scan.entry.h)
        × Standing scan.entry.w scan.entry.h rows.new ms.now }
{
    for (n, m) in ms.iter().enumerate() {
        put(rows, scan.block_place(scan_place(n)), *m);
    }
}
