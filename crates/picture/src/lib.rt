// A picture as samples by rows, up to 256 on a side, and its blocks of 8 by 8, counted along the rows. Where the
// picture ends inside a block, its last column and its last row are repeated. What the viewer shows is kept block by
// block as it comes, and is then put in the picture's own order. There is room for the largest picture.
#![tactic(auto)]

ghost use Rattle.std.specs.Prelude.{◌≤◌, length};
ghost use Rattle.picture.specs.Picture.{ByRows};

mod block;
mod sides;

pub use block::{Block, keep};
pub use sides::Size;

// The two whole pictures by rows: as the camera saw it, and as it is shown.
#[derive(Clone, Copy)]
pub struct Pictures<'a> {
    pub size: Size,
    pub camera: &'a [u16],
    pub shown: &'a [u16],
    pub ghost roomy: { (65536 ≤ length camera.now) × (65536 ≤ length shown.now) },
}

// The samples that were kept, in the picture's own order.
pub fn by_rows(kept: &[u16], size: Size, shown: &mut [u16])
    requires { (65536 ≤ length kept.now) × (65536 ≤ length shown.old) }
    ensures { ByRows kept.now size shown.new }
{
    for p in 0..size.area() {
        shown[p] = kept[size.kept_place(p)];
    }
}
