// The scales of the quantiser, and those by which levels are scaled back.
ghost use Rattle.std.specs.Prelude.{◌≡◌, ◌≤◌};
ghost use Rattle.tables.specs.Scales.{forward, back, scale_of, error_scale};

use refusals::ranges::Side;

// q by QP mod 6.
const SCALES: [u32; 6] = [26214, 23302, 20560, 18396, 16384, 14564];

// s by QP mod 6.
const BACK_SCALES: [u32; 6] = [40, 45, 51, 57, 64, 72];

// E by side and by QP mod 6: a row for each of the sides 2, 4, 8, 16, 32.
const ERROR_SCALES: [u32; 30] = [
    20480, 23039, 26112, 29184, 32768, 36862, 40960, 46079, 52224, 58368, 65536, 73725, 81921,
    92158, 104449, 116736, 131072, 147451, 163842, 184317, 208899, 233472, 262144, 294903, 327685,
    368635, 417798, 466945, 524288, 589806,
];

#[tactic(auto, unfolding(crate::specs::Scales::scale_of, crate::specs::Scales::forward))]
pub fn scale(qp: u32) -> u32
    ensures { result ≡ scale_of forward qp }
{
    let table = SCALES;
    table[(qp % 6) as usize]
}

#[tactic(auto, unfolding(crate::specs::Scales::scale_of, crate::specs::Scales::back))]
pub fn back_scale(qp: u32) -> u32
    ensures { result ≡ scale_of back qp }
{
    let table = BACK_SCALES;
    table[(qp % 6) as usize]
}

pub fn error_scale(side: Side, qp: u32) -> u32
    ensures { result ≡ error_scale side.log2 (scale_of forward qp) }
{
    let table = ERROR_SCALES;
    table[(side.log2 - 1) * 6 + (qp % 6) as usize]
}
