// Numbers and words put into a buffer. Each function writes at a place and answers the place after what it wrote; all
// else stays as it was, for all numbers and all words. A number printed is read back as itself by `numerals`, and no
// number has two texts (proofs/RoundTrip).
#![tactic(auto)]

ghost use Rattle.std.specs.Prelude.{◌≡◌, ◌+◌, ◌≤◌, length};
ghost use Rattle.text.specs.Text.{printed, printed_sample, Put};

// Kept: the room and the place in it are two parameters: protocol's `answer` lends the room, and Written speaks of it.
// The digits of a tenth, and then the last.
pub fn put_natural(out: &mut [u8], at: usize, value: u64) -> usize
    requires { at + 20 ≤ length out.old }
    ensures { Put out.old at (printed value) 20 out.new result }
{
    if value < 10 {
        out[at] = b'0' + value as u8;
        return at + 1;
    }
    let end = put_natural(out, at, value / 10);
    out[end] = b'0' + (value % 10) as u8;
    end + 1
}

// The magnitude, behind a `-` if the sample is negative.
pub fn put_sample(out: &mut [u8], at: usize, value: i16) -> usize
    requires { at + 21 ≤ length out.old }
    ensures { Put out.old at (printed_sample value) 6 out.new result }
{
    let size = u64::from(value.unsigned_abs());
    if value < 0 {
        out[at] = b'-';
        return put_natural(out, at + 1, size);
    }
    put_natural(out, at, size)
}

pub fn put_word(out: &mut [u8], at: usize, word: &[u8]) -> usize
    requires { at + length word.now ≤ length out.old }
    ensures { Put out.old at word.now (length word.now) out.new result }
{
    let end = at + word.len();
    out[at..end].copy_from_slice(word);
    end
}
