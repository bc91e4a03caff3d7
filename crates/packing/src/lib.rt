// A symbol packed in a number, and taken out of it: the definitions of `runs`, in 32 bits. The width of a run's field
// stands here once.
#![tactic(auto)]

ghost use Rattle.std.specs.Prelude.{◌≡◌, ◌<◌, ◌^◌};
ghost use Rattle.runs.specs.Packing.{run_bits, packed, unpacked, overfull};

use runs::Symbol;

// The width of a run's field. The code has this number here alone.
const RUN_BITS: u32 = 10;

// Kept: functions, no From: `Symbol` is another crate's, as the number is, and `pack` asks something of the fields.
#[tactic(auto, unfolding(runs::specs::Packing::packed))]
pub fn pack(s: Symbol) -> u32
    requires { (s.run < 2 ^ run_bits) × (s.magnitude < 2 ^ 15) }
    ensures { result ≡ packed run_bits s }
{
    let level = s.run + (s.magnitude << RUN_BITS);
    level + (u32::from(s.negative) << (RUN_BITS + 15)) + (u32::from(s.last) << (RUN_BITS + 16))
}

#[tactic(auto, unfolding(runs::specs::Packing::unpacked))]
pub fn unpack(u: u32) -> Symbol
    ensures { result ≡ unpacked run_bits u }
{
    Symbol {
        run: u % (1 << RUN_BITS),
        magnitude: (u >> RUN_BITS) % (1 << 15),
        negative: (u >> (RUN_BITS + 15)) % 2 == 1,
        last: (u >> (RUN_BITS + 16)) % 2 == 1,
    }
}

// Whether a bit is set that no symbol uses.
#[tactic(auto, unfolding(runs::specs::Packing::overfull))]
pub fn overfull(u: u32) -> bool
    ensures { result ≡ overfull run_bits u }
{
    (1 << (RUN_BITS + 17)) <= u
}
