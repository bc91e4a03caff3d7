// A picture as PGM has it, read from its bytes: the header of P2 (numbers as text) and P5 (bytes), with comments, and
// the samples, each scaled to 10 bits. What is wrong with a file is told by name. Nothing is read past the last sample.
#![tactic(auto)]

ghost use Rattle.std.specs.Prelude.{◌≡◌, ◌≤◌, ◌<◌, length, IfSome, IfOk};
ghost use Rattle.pgm.specs.Gap.{is_blank, in_gap, goes_on, past_gap};
ghost use Rattle.pgm.specs.Number.{is_digit, with_digit, found_of, digits_at, number_at, byte_at, pair_at, sample_at};
ghost use Rattle.pgm.specs.Header.{told, raw_form, positive_at, samples_from, head_checked, head_sized, head_kind};
ghost use Rattle.pgm.specs.Header.{head_of};
ghost use Rattle.pgm.specs.Samples.{scaled_of, Outcome};

mod head;
mod wrong;

pub use head::{Form, Header};
use picture::Size;
pub use wrong::{BadSample, Unread};

// A number, and where the next begins. Numbers above 999999 are read as 1000000.
#[derive(Clone, Copy)]
pub struct Number {
    pub value: u32,
    pub next: usize,
}

#[tactic(auto, unfolding(crate::specs::Gap::is_blank))]
fn is_blank(b: u8) -> bool
    ensures { result ≡ is_blank b }
{
    matches!(b, b' ' | b'\t'..=b'\r')
}

// Whether a byte belongs to what may stand between two numbers.
#[tactic(auto, unfolding(crate::specs::Gap::in_gap))]
fn in_gap(comment: bool, b: u8) -> bool
    ensures { result ≡ in_gap comment b }
{
    comment || b == b'#' || is_blank(b)
}

// Whether the next byte belongs to a comment: it ends with its line.
#[tactic(auto, unfolding(crate::specs::Gap::goes_on))]
fn goes_on(comment: bool, b: u8) -> bool
    ensures { result ≡ goes_on comment b }
{
    match b {
        b'#' => true,
        b'\n' | b'\r' => false,
        _ => comment,
    }
}

// The first place from `at` on where neither a blank nor a comment stands.
fn past_gap(bytes: &[u8], at: usize) -> usize
    ensures { result ≡ past_gap bytes.now at }
{
    let mut comment = false;
    for i in at..bytes.len() {
        if !in_gap(comment, bytes[i]) {
            return i;
        }
        comment = goes_on(comment, bytes[i]);
    }
    bytes.len().max(at)
}

#[tactic(auto, unfolding(crate::specs::Number::is_digit))]
fn is_digit(b: u8) -> bool
    ensures { result ≡ is_digit b }
{
    matches!(b, b'0'..=b'9')
}

// One digit more behind digits worth v.
#[tactic(auto, unfolding(crate::specs::Number::with_digit))]
fn with_digit(v: u32, b: u8) -> u32
    requires { v ≤ 1000000 }
    ensures { (result ≡ with_digit v b) × (result ≤ 1000000) }
{
    (10 * v + u32::from(b % 48)).min(1000000)
}

// A number whose digits, if there are any, end before `next`.
#[tactic(auto, unfolding(crate::specs::Number::found_of))]
fn found(at: usize, value: u32, next: usize) -> Option<Number>
    ensures { result ≡ found_of at value next }
{
    if next == at {
        return None;
    }
    Some(Number { value, next })
}

// The number whose digits begin at `at`.
fn digits(bytes: &[u8], at: usize) -> Option<Number>
    ensures { result ≡ digits_at bytes.now at }
{
    let mut value = 0;
    for i in at..bytes.len() {
        if !is_digit(bytes[i]) {
            return found(at, value, i);
        }
        value = with_digit(value, bytes[i]);
    }
    found(at, value, bytes.len().max(at))
}

// The number behind blanks and comments.
#[tactic(auto, unfolding(crate::specs::Number::number_at))]
fn next_number(bytes: &[u8], at: usize) -> Option<Number>
    ensures { result ≡ number_at bytes.now at }
{
    digits(bytes, past_gap(bytes, at))
}

#[tactic(auto, unfolding(crate::specs::Number::byte_at))]
fn next_byte(bytes: &[u8], at: usize) -> Option<Number>
    ensures value { result ≡ byte_at bytes.now at }
    ensures small { IfSome result (λ b. b.value ≤ 255) }
{
    if bytes.len() <= at {
        return None;
    }
    Some(Number {
        value: u32::from(bytes[at]),
        next: at + 1,
    })
}

// Two bytes, the higher one first.
#[tactic(auto, unfolding(crate::specs::Number::pair_at))]
fn next_pair(bytes: &[u8], at: usize) -> Option<Number>
    ensures { result ≡ pair_at bytes.now at }
{
    let high = next_byte(bytes, at)?;
    let low = next_byte(bytes, high.next)?;
    Some(Number {
        value: 256 * high.value + low.value,
        next: low.next,
    })
}

#[tactic(auto, unfolding(crate::specs::Number::sample_at))]
fn next_sample(bytes: &[u8], at: usize, form: Form) -> Option<Number>
    ensures { result ≡ sample_at bytes.now form at }
{
    match form {
        Form::Plain => next_number(bytes, at),
        Form::Bytes => next_byte(bytes, at),
        Form::Pairs => next_pair(bytes, at),
    }
}

// How P5 has samples up to a maxval.
#[tactic(auto, unfolding(crate::specs::Header::raw_form))]
fn raw_form(most: u32) -> Form
    ensures { result ≡ raw_form most }
{
    if most < 256 { Form::Bytes } else { Form::Pairs }
}

// How the samples stand and where they begin: in P5 behind the one blank that ends the maxval.
#[tactic(auto, unfolding(crate::specs::Header::samples_from))]
fn begun(bytes: &[u8], plain: bool, most: Number) -> Result<(Form, usize), Unread>
    ensures { result ≡ samples_from bytes.now plain most }
{
    if plain {
        return Ok((Form::Plain, most.next));
    }
    match next_byte(bytes, most.next) {
        Some(blank) if is_blank(blank.value as u8) => Ok((raw_form(most.value), blank.next)),
        _ => Err(Unread::NoSamples),
    }
}

// A number from 1 up; else the head has what is wrong.
#[tactic(auto, unfolding(crate::specs::Header::positive_at))]
fn positive(bytes: &[u8], at: usize, wrong: Unread) -> Result<Number, Unread>
    ensures value { result ≡ positive_at bytes.now at wrong }
    ensures some { IfOk result (λ n. 1 ≤ n.value) }
{
    match next_number(bytes, at) {
        Some(number) if number.value != 0 => Ok(number),
        _ => Err(wrong),
    }
}

// The maxval and the samples behind sides that were found.
#[tactic(auto, unfolding(crate::specs::Header::head_checked))]
fn checked(bytes: &[u8], plain: bool, width: Number, height: Number) -> Result<Header, Unread>
    requires { (1 ≤ width.value) × (1 ≤ height.value) }
    ensures { told result ≡ head_checked bytes.now plain width height }
{
    if 256 < width.value || 256 < height.value {
        return Err(Unread::TooLarge);
    }
    let most = positive(bytes, height.next, Unread::NoMost)?;
    if 65535 < most.value {
        return Err(Unread::NoMost);
    }
    let (form, at) = begun(bytes, plain, most)?;
    Ok(Header {
        size: Size {
            width: width.value as usize,
            height: height.value as usize,
        },
        most: most.value,
        form,
        at,
    })
}

// The sides and the maxval behind P2 or P5.
#[tactic(auto, unfolding(crate::specs::Header::head_sized))]
fn sized(bytes: &[u8], plain: bool) -> Result<Header, Unread>
    ensures { told result ≡ head_sized bytes.now plain }
{
    let width = positive(bytes, 2, Unread::NoWidth)?;
    let height = positive(bytes, width.next, Unread::NoHeight)?;
    checked(bytes, plain, width, height)
}

#[tactic(auto, unfolding(crate::specs::Header::head_kind))]
fn by_kind(bytes: &[u8], kind: u8) -> Result<Header, Unread>
    ensures { told result ≡ head_kind bytes.now kind }
{
    match kind {
        b'2' => sized(bytes, true),
        b'5' => sized(bytes, false),
        _ => Err(Unread::Other(kind)),
    }
}

// By the letter and the digit that a file begins with; a blank or a comment stands behind them.
#[tactic(auto, unfolding(crate::specs::Header::head_of))]
pub fn read_header(bytes: &[u8]) -> Result<Header, Unread>
    ensures { told result ≡ head_of bytes.now }
{
    if bytes.len() < 3 || bytes[0] != b'P' || !in_gap(false, bytes[2]) {
        return Err(Unread::NoPgm);
    }
    by_kind(bytes, bytes[1])
}

// A sample up to `most` as one of 10 bits, to the nearest.
fn scaled(v: u32, most: u32) -> u16
    requires { (v ≤ most) × (1 ≤ most) × (most ≤ 65535) }
    ensures { (result ≡ scaled_of v most) × (result ≤ 1023) }
{
    ((v * 1023 + most / 2) / most) as u16
}

// Takes n samples, by rows, from `at` on.
pub fn take_samples(
    bytes: &[u8],
    at: usize,
    form: Form,
    most: u32,
    n: usize,
    camera: &mut [u16],
) -> Result<(), BadSample>
    requires { (1 ≤ most) × (most ≤ 65535) × (n ≤ length camera.old) }
    ensures { Outcome bytes.now form at most n camera.new result }
{
    let mut from = at;
    for i in 0..n {
        let Some(sample) = next_sample(bytes, from, form) else {
            return Err(BadSample::Missing(i));
        };
        if most < sample.value {
            return Err(BadSample::Above(i));
        }
        camera[i] = scaled(sample.value, most);
        from = sample.next;
    }
    Ok(())
}
