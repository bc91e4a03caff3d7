// What the viewer shows of a block, beside what the camera saw: the residuals that are coded, the samples made of those
// that come back, how far the two pictures lie apart, and how much darker the one shown is. The guess is 700 at every
// sample: light paper. A block of 64 stands in front of 32 samples of chroma, which are not coded.
#![tactic(auto)]

ghost use Rattle.std.specs.Prelude.{◌≡◌, ℕ, ◌≤◌, ◌<◌, length, get_or};
ghost use Rattle.shown.specs.Shown.{residual_of, viewed_of, apart_of, apart_at, Residuals, Views, block_apart};
ghost use Rattle.shown.specs.Shown.{apart_in, darker_in, distance_in, Farthest, farther_of};

use picture::Block;

// A sample of 10 bits less the guess.
#[tactic(auto, unfolding(crate::specs::Shown::residual_of))]
fn residual(sample: u16) -> i16
    ensures { result ≡ residual_of sample }
{
    sample.min(1023) as i16 - 700
}

// The guess and a residual, as a sample of 10 bits.
fn viewed(residual: i16) -> u16
    ensures { (result ≡ viewed_of residual) × (result ≤ 1023) }
{
    let guess: u16 = 700;
    guess.saturating_add_signed(residual).min(1023)
}

pub fn residuals(seen: &[u16; 64]) -> [i16; 96]
    ensures { Residuals seen.now result }
{
    let mut block = [0i16; 96];
    for i in 0..64 {
        block[i] = residual(seen[i]);
    }
    block
}

pub fn views(block: &[i16; 96]) -> [u16; 64]
    ensures { Views block.now result }
{
    let mut view = [0u16; 64];
    for i in 0..64 {
        view[i] = viewed(block[i]);
    }
    view
}

// The difference at place i of a block, 0 outside the picture.
#[tactic(auto, unfolding(crate::specs::Shown::apart_at, crate::specs::Shown::apart_of))]
fn apart_at(block: Block, seen: &[u16; 64], view: &[u16; 64], i: usize) -> u16
    requires { i < 64 }
    ensures { result ≡ apart_at block.size block.number seen.now view.now i }
{
    if block.inside(i) {
        seen[i].abs_diff(view[i])
    } else {
        0
    }
}

// The largest difference of a sample of a block.
pub fn block_apart(block: Block, seen: &[u16; 64], view: &[u16; 64]) -> u16
    ensures { result ≡ block_apart block.size block.number seen.now view.now }
{
    let mut top: u16 = 0;
    for i in 0..64 {
        top = top.max(apart_at(block, seen, view, i));
    }
    top
}

// The largest difference or darkening of a sample, and the first place that has it.
#[derive(Clone, Copy)]
pub struct Worst {
    pub most: u16,
    pub at: usize,
}

impl Worst {
    // Place p as well, at a distance d.
    #[tactic(auto, unfolding(crate::specs::Shown::farther_of))]
    fn farther(self, d: u16, p: usize) -> Worst
        ensures { result ≡ farther_of self d p }
    {
        if self.most < d {
            Worst { most: d, at: p }
        } else {
            self
        }
    }
}

// The largest distance of the first n samples of two pictures.
fn worst_by<F: Fn(u16, u16) -> u16>(camera: &[u16], shown: &[u16], n: usize, distance: F) -> Worst
    ghost of: { ℕ → ℕ → ℕ }
    requires some { (1 ≤ n) × (n ≤ length camera.now) × (n ≤ length shown.now) }
    requires called { F.IsAlwaysCallable distance }
    requires gives { (a b r : ℕ) → a < 65536 → b < 65536 → F.post distance a b r → r ≡ of a b }
    ensures { Farthest (distance_in of camera.now shown.now) n result }
{
    let mut best = Worst {
        most: distance(camera[0], shown[0]),
        at: 0,
    };
    for p in 1..n {
        best = best.farther(distance(camera[p], shown[p]), p);
    }
    best
}

// The largest difference of the first n samples of two pictures.
#[tactic(auto, unfolding(crate::specs::Shown::apart_of))]
pub fn farthest(camera: &[u16], shown: &[u16], n: usize) -> Worst
    requires { (1 ≤ n) × (n ≤ length camera.now) × (n ≤ length shown.now) }
    ensures { Farthest (apart_in camera.now shown.now) n result }
{
    worst_by(camera, shown, n, |seen, view| seen.abs_diff(view))
}

// The largest darkening of the first n samples: how much less is shown than the camera saw.
#[tactic(auto, unfolding(crate::specs::Shown::darker_of))]
pub fn darkest(camera: &[u16], shown: &[u16], n: usize) -> Worst
    requires { (1 ≤ n) × (n ≤ length camera.now) × (n ≤ length shown.now) }
    ensures { Farthest (darker_in camera.now shown.now) n result }
{
    worst_by(camera, shown, n, |seen, view| seen.saturating_sub(view))
}
