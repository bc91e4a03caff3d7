// What may be wrong with a picture, as a text that ends no line.
use std::fmt::{Display, Formatter, Result, Write};

// With its head. `Other` has the byte behind the P.
#[derive(Clone, Copy)]
pub enum Unread {
    NoPgm,
    Other(u8),
    NoWidth,
    NoHeight,
    NoMost,
    TooLarge,
    NoSamples,
}

impl Display for Unread {
    fn fmt<W: Write>(&self, f: &mut Formatter<W>) -> Result {
        match self {
            Unread::NoPgm => f.write_str("this is not a PGM picture: neither P2 nor P5"),
            Unread::Other(kind) => {
                let letter = char::from(*kind);
                write!(
                    f,
                    "this is a P{letter} picture: label reads P2 and P5, which are grey (PGM)"
                )
            }
            Unread::NoWidth => f.write_str("the picture's width is missing or 0"),
            Unread::NoHeight => f.write_str("the picture's height is missing or 0"),
            Unread::NoMost => f.write_str("the picture's maxval is missing, 0 or above 65535"),
            Unread::TooLarge => f.write_str("the picture is larger than 256 by 256"),
            Unread::NoSamples => f.write_str("no blank stands behind the picture's maxval"),
        }
    }
}

// With its samples: the one that is missing, or above the maxval, counted from 0.
#[derive(Clone, Copy)]
pub enum BadSample {
    Missing(usize),
    Above(usize),
}

impl Display for BadSample {
    fn fmt<W: Write>(&self, f: &mut Formatter<W>) -> Result {
        match self {
            BadSample::Missing(k) => write!(
                f,
                "the picture ends, or has something else than a number, behind its sample {k}"
            ),
            BadSample::Above(k) => {
                let number = k.saturating_add(1);
                write!(f, "the picture's maxval is below its sample {number}")
            }
        }
    }
}
