// The verbs of requests. A verb is read from its word and from no other.
#![tactic(auto)]

ghost use Rattle.std.specs.Prelude.{◌≡◌};
ghost use Rattle.verbs.specs.Verbs.{word_of, verb_of};

#[derive(Clone, Copy)]
pub enum Verb {
    Transform,
    Quantise,
    SubBlock,
    ScaleBack,
    Inverse,
    Guarded,
    Measure,
    Write,
    Read,
}

// In the order in which their words are tried.
const VERBS: [Verb; 9] = [
    Verb::Transform,
    Verb::Quantise,
    Verb::SubBlock,
    Verb::ScaleBack,
    Verb::Inverse,
    Verb::Guarded,
    Verb::Measure,
    Verb::Write,
    Verb::Read,
];

impl Verb {
    fn word(self) -> &'static [u8]
        ensures { result.now ≡ word_of self }
    {
        match self {
            Verb::Transform => b"transform",
            Verb::Quantise => b"quantise",
            Verb::SubBlock => b"subblock",
            Verb::ScaleBack => b"scaleback",
            Verb::Inverse => b"inverse",
            Verb::Guarded => b"guarded",
            Verb::Measure => b"measure",
            Verb::Write => b"write",
            Verb::Read => b"read",
        }
    }
}

pub fn read_verb(word: &[u8]) -> Option<Verb>
    ensures { result ≡ verb_of word.now }
{
    VERBS.iter().copied().find(|verb| word == verb.word())
}
