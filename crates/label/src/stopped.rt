// Why the page ends before its end.
use asked::Wrong;
use std::fmt::{Display, Formatter, Write};
use std::io::Print;
use std::{fmt, io};

// What refuses a block. `Height` has the block's number, counted from 1.
#[derive(Clone, Copy)]
pub enum Unmade {
    Transform,
    Quantiser,
    Height(usize),
    Viewer,
}

impl Display for Unmade {
    fn fmt<W: Write>(&self, f: &mut Formatter<W>) -> fmt::Result {
        match self {
            Unmade::Transform => f.write_str("the transform refuses a block"),
            Unmade::Quantiser => f.write_str("the quantiser refuses a block at this QP and lambda"),
            Unmade::Height(b) => {
                write!(f, "block {b} can't be brought within the height at this QP")
            }
            Unmade::Viewer => f.write_str("the viewer's half refuses a block"),
        }
    }
}

// `Output` is a failed write.
#[derive(Drop)]
pub enum Stopped {
    Asked(Wrong),
    Block(Unmade),
    Output(io::Error),
}

impl From<Wrong> for Stopped {
    fn from(why: Wrong) -> Stopped {
        Stopped::Asked(why)
    }
}

impl From<Unmade> for Stopped {
    fn from(why: Unmade) -> Stopped {
        Stopped::Block(why)
    }
}

impl From<io::Error> for Stopped {
    fn from(why: io::Error) -> Stopped {
        Stopped::Output(why)
    }
}

impl Stopped {
    // On a line of standard error; whether that was written is not asked.
    pub fn say<E: Print>(&self, err: &E) {
        let _ = match self {
            Stopped::Asked(why) => {
                why.say(err);
                Ok(())
            }
            Stopped::Block(why) => err.println(format_args!("label: {why}")),
            Stopped::Output(why) => err.println(format_args!("label: standard output: {why}")),
        };
    }
}
