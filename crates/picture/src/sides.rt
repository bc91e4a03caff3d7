// The sides of a picture.
ghost use Rattle.std.specs.Prelude.{◌≡◌, ◌*◌, ◌≤◌, ◌<◌};

// From 1 to 256 each.
#[derive(Clone, Copy)]
pub struct Size {
    pub width: usize,
    pub height: usize,
    pub ghost wide: { (1 ≤ width) × (width ≤ 256) },
    pub ghost high: { (1 ≤ height) × (height ≤ 256) },
}

impl Size {
    ghost use Rattle.picture.specs.Picture.{across_of, down_of, kept_of};

    // How many blocks stand beside each other.
    pub fn across(self) -> usize
        ensures { (result ≡ across_of self) × (1 ≤ result) × (result ≤ 32) }
    {
        self.width.div_ceil(8)
    }

    // And below each other.
    pub fn down(self) -> usize
        ensures { (result ≡ down_of self) × (1 ≤ result) × (result ≤ 32) }
    {
        self.height.div_ceil(8)
    }

    // How many samples the picture has.
    pub fn area(self) -> usize
        ensures { (result ≡ self.height * self.width) × (1 ≤ result) × (result ≤ 65536) }
    {
        self.height * self.width
    }

    // Where the sample at place p of the picture is kept.
    #[tactic(auto, using(crate::proofs::Bounds::by_blocks), unfolding(crate::specs::Picture::kept_of))]
    pub(crate) fn kept_place(self, p: usize) -> usize
        requires { p < self.height * self.width }
        ensures { (result ≡ kept_of self p) × (result < 65536) }
    {
        let y = p / self.width;
        let x = p % self.width;
        (y / 8 * self.across() + x / 8) * 64 + y % 8 * 8 + x % 8
    }
}
