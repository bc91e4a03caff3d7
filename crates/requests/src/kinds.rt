// The kinds of a request's fields, and the fields of each verb.
ghost use Rattle.std.specs.Prelude.{◌≡◌, ◌≤◌, length, IfSome};
ghost use Rattle.requests.specs.Request.{limit_of, field_of, kinds_of};

use numerals::number::{read_bits, read_natural};
use verbs::Verb;

#[derive(Clone, Copy)]
pub enum Kind {
    // A component.
    Component,
    // A number of 32 bits.
    Short,
    // The bits of an f64.
    Double,
    // Any number of 64 bits.
    Long,
}

// The fields that the verbs have, up to the list or N: each kind is a letter.
use Kind::{Component as C, Double as X, Long as W, Short as I};

const SIDES: [Kind; 2] = [W, W];

const QUANTISE: [Kind; 33] = [
    C, W, I, X, I, W, W, W, W, W, W, W, W, W, W, W, W, W, W, W, W, W, W, W, W, W, W, W, W, W, W, W,
    W,
];

const SUB_BLOCK: [Kind; 37] = [
    W, I, I, X, I, X, I, X, I, W, W, W, W, W, W, W, W, W, W, W, W, W, W, W, W, W, W, W, W, W, W, W,
    W, W, W, W, W,
];

const SCALE_BACK: [Kind; 2] = [W, I];

const GUARDED: [Kind; 43] = [
    W, I, I, X, I, X, I, X, I, I, I, I, I, I, I, W, W, W, W, W, W, W, W, W, W, W, W, W, W, W, W, W,
    W, W, W, W, W, W, W, W, W, W, W,
];

const MEASURE: [Kind; 4] = [W, I, I, W];

const SIDE: [Kind; 1] = [W];

impl Kind {
    // A word as a field of the kind.
    pub fn read(self, word: &[u8]) -> Option<u64>
        ensures value { result ≡ field_of self word.now }
        ensures within { IfSome result (λ v. v ≤ limit_of self) }
    {
        match self {
            Kind::Component => read_natural(word, 2),
            Kind::Short => read_natural(word, 4294967295),
            Kind::Double => read_bits(word),
            Kind::Long => read_natural(word, 18446744073709551615),
        }
    }
}

// The fields of a verb before its list or N:
//   transform: LOG2W LOG2H
//   quantise: COMPONENT LOG2 QP LAMBDA FLAGS, COSTS
//   subblock: LOG2 RUN QPY LAMBDAY QPU LAMBDAU QPV LAMBDAV FLAGS, COSTS
//   scaleback: LOG2 QP
//   inverse: LOG2W LOG2H
//   guarded: those of subblock up to FLAGS, DARKERY DARKERU DARKERV LIGHTERY LIGHTERU LIGHTERV, COSTS
//   measure: LOG2 QP FLAGS RESIDUALS
//   write: LOG2
//   read: LOG2
pub fn kinds_of(verb: Verb) -> &'static [Kind]
    ensures { (result.now ≡ kinds_of verb) × (length result.now ≤ 48) }
{
    match verb {
        Verb::Transform => &SIDES,
        Verb::Quantise => &QUANTISE,
        Verb::SubBlock => &SUB_BLOCK,
        Verb::ScaleBack => &SCALE_BACK,
        Verb::Inverse => &SIDES,
        Verb::Guarded => &GUARDED,
        Verb::Measure => &MEASURE,
        Verb::Write => &SIDE,
        Verb::Read => &SIDE,
    }
}
