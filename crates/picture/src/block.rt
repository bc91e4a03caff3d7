// A block of 8 by 8 of a picture, and where its samples stand.
ghost use Rattle.std.specs.Prelude.{◌≡◌, ◌≤◌, ◌<◌, length};
ghost use Rattle.picture.specs.Picture.{row_of, column_of, inside_of, place_of, Taken, Kept};

use crate::sides::Size;

// By its number, counted along the rows of blocks: a picture has up to 1024.
#[derive(Clone, Copy)]
pub struct Block {
    pub size: Size,
    pub number: usize,
    pub ghost within: { number < 1024 },
}

impl Block {
    // The row of the picture, or behind its last, at place i.
    pub fn row(self, i: usize) -> usize
        requires { i < 64 }
        ensures { result ≡ row_of self.size self.number i }
    {
        self.number / self.size.across() * 8 + i / 8
    }

    pub fn column(self, i: usize) -> usize
        requires { i < 64 }
        ensures { result ≡ column_of self.size self.number i }
    {
        self.number % self.size.across() * 8 + i % 8
    }

    // Whether place i is in the picture.
    #[tactic(auto, unfolding(crate::specs::Picture::inside_of))]
    pub fn inside(self, i: usize) -> bool
        requires { i < 64 }
        ensures { result ≡ inside_of self.size self.number i }
    {
        self.row(i) < self.size.height && self.column(i) < self.size.width
    }

    // Where the sample at place i stands, or the nearest one that the picture has.
    #[tactic(auto, using(crate::proofs::Bounds::by_rows_lem), unfolding(crate::specs::Picture::place_of))]
    pub fn place(self, i: usize) -> usize
        requires { i < 64 }
        ensures { (result ≡ place_of self.size self.number i) × (result < 65536) }
    {
        let y = self.row(i).min(self.size.height - 1);
        let x = self.column(i).min(self.size.width - 1);
        y * self.size.width + x
    }

    pub fn take(self, camera: &[u16]) -> [u16; 64]
        requires { 65536 ≤ length camera.now }
        ensures { Taken camera.now self.size self.number result }
    {
        let mut block = [0u16; 64];
        for i in 0..64 {
            block[i] = camera[self.place(i)];
        }
        block
    }

    // Keeps its samples behind those of the blocks before it.
    pub fn keep(self, kept: &mut [u16], samples: &[u16; 64])
        requires { 65536 ≤ length kept.old }
        ensures { Kept kept.old self.number samples.now kept.new }
    {
        keep(kept, self.number, samples);
    }
}

// Keeps a block by its number alone, behind those before it.
pub fn keep(kept: &mut [u16], number: usize, samples: &[u16; 64])
    requires { (number < 1024) × (65536 ≤ length kept.old) }
    ensures { Kept kept.old number samples.now kept.new }
{
    let from = number * 64;
    kept[from..from + 64].copy_from_slice(samples);
}
