// The diagonal scan, and the two kinds of places that it joins: a scan place is looked up, and what comes of it is the
// block place by the diagonal rule. The numbers are listed as data; one computed test stands between them and the rule.
#![tactic(auto)]

mod scans;

ghost use Rattle.std.specs.Prelude.{◌≡◌, ◌<◌, ◌≤◌, ◌*◌, ◌^◌, length, get_or, set};
ghost use Rattle.refusals.specs.Sides.{most_log2};
ghost use Rattle.scan.specs.Scan.{most_places, scan, scan_at, square_scan};
ghost use Rattle.scan.specs.Scanned.{Scanned};

use crate::scans::SCANS;
use refusals::ranges::Side;

// A place in scan order, and a place in the block by rows: counts below `most_places`. What they hold is reached in
// this crate alone, so that only the lookup turns the first into the second, and none can be taken for the other.
#[derive(Clone, Copy)]
pub struct ScanPlace(usize);

#[derive(Clone, Copy)]
pub struct BlockPlace(usize);

// The scan of a block w wide and h high, as it is lent to what goes along it.
#[derive(Clone, Copy)]
pub struct Scan<'a> {
    held: &'a [u16],
    pub w: usize,
    pub h: usize,
    pub ghost scanned: { Scanned w h held.now },
}

// The listed table's part for a side: the diagonal rule's numbers.
fn listed(side: Side) -> &'static [u16]
    ensures { result.now ≡ square_scan side.log2 }
{
    match side.log2 {
        1 => &SCANS.two,
        2 => &SCANS.four,
        3 => &SCANS.eight,
        4 => &SCANS.sixteen,
        _ => &SCANS.thirtytwo,
    }
}

// The scan of a square block, written into the list that is lent. Of the table a call writes out the list of its side
// alone.
pub fn fill_scan(log2: usize, held: &mut [u16])
    requires { (1 ≤ log2) × (log2 ≤ most_log2) × (length held.old ≡ 4 ^ log2) }
    ensures { held.new ≡ square_scan log2 }
{
    held.copy_from_slice(listed(Side { log2 }));
}

// The lookup in the held scan of a block w wide and h high, by whoever holds it.
pub fn block_place(held: &[u16], w: usize, h: usize, p: ScanPlace) -> BlockPlace
    requires { (held.now ≡ scan w h) × (p.0 < length held.now) × (1 ≤ w) × (1 ≤ h) × (w * h ≤ most_places) }
    ensures { (result.0 ≡ scan_at w h p.0) × (result.0 < w * h) × (result.0 < most_places) }
{
    BlockPlace(held[p.0] as usize)
}

impl<'a> Scan<'a> {
    // Of a square block, written into the room: taken once a call.
    pub fn square(side: Side, room: &'a mut [u16]) -> Scan<'a>
        requires { length room.old ≡ 4 ^ side.log2 }
        ensures { (result.w ≡ 2 ^ side.log2) × (result.h ≡ 2 ^ side.log2) }
    {
        fill_scan(side.log2, room);
        let a = side.length();
        Scan {
            held: room,
            w: a,
            h: a,
        }
    }

    // Of a block of any width and height, whose scan stands in what is lent.
    pub fn over(held: &'a [u16], w: usize, h: usize) -> Scan<'a>
        requires { Scanned w h held.now }
        ensures { (result.w ≡ w) × (result.h ≡ h) × (result.held.now ≡ held.now) }
    {
        Scan { held, w, h }
    }

    // The lookup.
    pub fn block_place(self, p: ScanPlace) -> BlockPlace
        requires { p.0 < self.w * self.h }
        ensures { (result.0 ≡ scan_at self.entry.w self.entry.h p.0) × (result.0 < self.entry.w * self.entry.h)
            × (result.0 < most_places) }
    {
        block_place(self.held, self.w, self.h, p)
    }
}

pub fn scan_place(p: usize) -> ScanPlace
    requires { p < most_places }
    ensures { (result.0 ≡ p) × (result.0 < most_places) }
{
    ScanPlace(p)
}

// What stands at a place in a block, or in what is kept of it, by rows.
pub fn value_at<T: Copy>(block: &[T], place: BlockPlace) -> T
    requires { place.0 < length block.now }
    ensures { (d : T) → result ≡ get_or block.now place.0 d }
{
    block[place.0]
}

pub fn put<T: Copy>(values: &mut [T], place: BlockPlace, value: T)
    requires { place.0 < length values.old }
    ensures { values.new ≡ set values.old place.0 value }
{
    values[place.0] = value;
}
