// A word read as a number. Nothing is read in part: a word is a number or none.
ghost use Rattle.std.specs.Prelude.{◌≡◌, ◌≤◌, MatchOption};
ghost use Rattle.std.specs.Float.{binary64};
ghost use Rattle.std.specs.Float.Ieee.{of_bits};
ghost use Rattle.numerals.specs.Number.{natural_up_to, sample_of, bits_of, hex_digit};

// The first of several digits is not 0. What is read passes the limit at no digit, so that nothing overflows.
#[tactic(auto, using(crate::proofs::Reading::begun))]
pub fn read_natural(word: &[u8], limit: u64) -> Option<u64>
    ensures { result ≡ natural_up_to limit word.now }
{
    if let [] | [b'0', _, ..] = word {
        return None;
    }
    let mut value: u64 = 0;
    for byte in word {
        let b'0'..=b'9' = *byte else {
            return None;
        };
        let digit = u64::from(*byte - b'0');
        value = value.checked_mul(10)?.checked_add(digit)?;
        if limit < value {
            return None;
        }
    }
    Some(value)
}

// A sample may have a `-` before it. -32768 has no magnitude in 16 bits, so that one less than it is negated.
pub fn read_sample(word: &[u8]) -> Option<i16>
    ensures { result ≡ sample_of word.now }
{
    match word {
        [] => None,
        [b'-', digits @ ..] => {
            let size = read_natural(digits, 32768)?;
            let less = size.checked_sub(1)?;
            Some(-1 - less as i16)
        }
        _ => {
            let plain = read_natural(word, 32767)?;
            Some(plain as i16)
        }
    }
}

// The worth of a hex digit.
fn worth_of(byte: u8) -> Option<u64>
    ensures { MatchOption result (hex_digit byte ≡ 16) (λ d. (d ≡ hex_digit byte) × (d ≤ 15)) }
{
    match byte {
        b'0'..=b'9' => Some(u64::from(byte - b'0')),
        b'a'..=b'f' => Some(u64::from(byte - b'a' + 10)),
        _ => None,
    }
}

// 16 hex digits in lower case: the bits of an f64.
pub fn read_bits(word: &[u8]) -> Option<u64>
    ensures { result ≡ bits_of word.now }
{
    if word.len() != 16 {
        return None;
    }
    let mut value: u64 = 0;
    for byte in word {
        value = 16 * value + worth_of(*byte)?;
    }
    Some(value)
}

// The bit of a sign, and the pattern of the positive infinity, above which those of NaN stand.
const SIGN: u64 = 0x8000_0000_0000_0000;

const INFINITY: u64 = 0x7ff0_0000_0000_0000;

// The f64 of a pattern of bits. Every pattern of a NaN is the one NaN.
pub fn double_of(bits: u64) -> f64
    ensures { result ≡ of_bits binary64 bits }
{
    if INFINITY < bits % SIGN {
        return 0.0 / 0.0;
    }
    f64::from_bits(bits)
}
