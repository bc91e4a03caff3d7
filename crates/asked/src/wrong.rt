// What may be wrong with what `label` is asked, or with the picture that it reads.
use pgm::{BadSample, Unread};
use std::fmt::{Display, Formatter, Write};
use std::io::Print;
use std::{fmt, io};

#[derive(Drop)]
pub enum Wrong {
    Words,
    Qp,
    Lambda,
    Height,
    Input(io::Error),
    TooLong,
    Head(Unread),
    Sample(BadSample),
}

impl From<io::Error> for Wrong {
    fn from(why: io::Error) -> Wrong {
        Wrong::Input(why)
    }
}

impl From<Unread> for Wrong {
    fn from(why: Unread) -> Wrong {
        Wrong::Head(why)
    }
}

impl From<BadSample> for Wrong {
    fn from(why: BadSample) -> Wrong {
        Wrong::Sample(why)
    }
}

impl Display for Wrong {
    fn fmt<W: Write>(&self, f: &mut Formatter<W>) -> fmt::Result {
        match self {
            Wrong::Words => f.write_str("more words than a QP, a lambda and a height"),
            Wrong::Qp => f.write_str("QP is a whole number from 0 to 63"),
            Wrong::Lambda => {
                f.write_str("lambda is a whole number of millionths, up to 8192000000")
            }
            Wrong::Height => f.write_str("height is a whole number from 0 to 65535"),
            Wrong::Input(why) => write!(f, "standard input: {why}"),
            Wrong::TooLong => f.write_str("the picture has 524288 bytes or more"),
            Wrong::Head(why) => write!(f, "{why}"),
            Wrong::Sample(why) => write!(f, "{why}"),
        }
    }
}

impl Wrong {
    // On a line of standard error; whether that was written is not asked.
    pub fn say<E: Print>(&self, err: &E) {
        match self {
            // Kept: a byte behind the P that is not ASCII is written as it was read, which no text can be.
            Wrong::Head(Unread::Other(kind @ 128..)) => {
                let _ = err.print("label: this is a P");
                let _ = err.write_all(&[*kind]);
                let _ = err.println(" picture: label reads P2 and P5, which are grey (PGM)");
            }
            _ => {
                let _ = err.println(format_args!("label: {self}"));
            }
        }
    }
}
