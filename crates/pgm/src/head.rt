// What a head says, and how the samples behind it stand.
ghost use Rattle.std.specs.Prelude.{◌≤◌};

use picture::Size;

// As text, a byte each, or two bytes each with the higher one first.
#[derive(Clone, Copy)]
pub enum Form {
    Plain,
    Bytes,
    Pairs,
}

// The sides, the maxval, how the samples stand, and where they begin.
#[derive(Clone, Copy)]
pub struct Header {
    pub size: Size,
    pub most: u32,
    pub form: Form,
    pub at: usize,
    pub ghost lit: { (1 ≤ most) × (most ≤ 65535) },
}
