// An input by lines, in a buffer that the caller lends. `next_line` finds lines in what stands there and reads nothing,
// so that its contract accounts for every byte: a line is handed out, one that the buffer can't hold is passed over and
// told, or more is asked for. `read` reads once from a reader, as standard input is one, and tells more bytes, the end
// and a failure apart.
#![tactic(auto)]

ghost use Rattle.std.specs.Prelude.{◌≡◌, false, ◌+◌, ◌≤◌, ◌<◌, ◌==◌, length, position, IfOk};
ghost use Rattle.input.specs.Lines.{arrival_of};

use std::io;
use std::io::Read;

// The bytes of the buffer from `from` up to `have` were read and not yet handed out. While a line that is too long is
// passed over, they belong to it.
#[derive(Clone, Copy)]
pub struct Cursor {
    pub from: usize,
    pub have: usize,
    pub passing: bool,
}

#[derive(Drop)]
pub enum Line {
    // A line stands in the buffer from `from` up to `end`, without its newline.
    At {
        from: usize,
        end: usize,
        rest: Cursor,
    },
    // A line that the buffer could not hold has been passed over.
    TooLong(Cursor),
    // No line ends in what is left: more is to be read.
    More(Cursor),
}

// What stands behind the last newline, where the input has ended.
#[derive(Drop)]
pub enum Tail {
    At { from: usize, end: usize },
    TooLong,
    Nothing,
}

// The place of the first newline.
fn newline_in(bytes: &[u8]) -> Option<usize>
    ensures { result ≡ position (λ b. b == 10) bytes.now }
{
    bytes.iter().position(|byte| *byte == b'\n')
}

// What a read's answer means. Without a byte more the input has ended.
fn meant(got: io::Result<usize>, c: Cursor) -> io::Result<Option<Cursor>>
    requires { IfOk got (λ n. c.have + n ≤ 18446744073709551615) }
    ensures { result ≡ arrival_of got c }
{
    let bytes = got?;
    if bytes == 0 {
        return Ok(None);
    }
    Ok(Some(Cursor {
        have: c.have + bytes,
        ..c
    }))
}

impl Cursor {
    ghost use Rattle.input.specs.Lines.{Within, Handed, Brought, Gave, tail_of};

    // Nothing was read yet.
    pub fn start() -> Self
        ensures { (result.from ≡ 0) × (result.have ≡ 0) × (result.passing ≡ false) }
    {
        Cursor {
            from: 0,
            have: 0,
            passing: false,
        }
    }

    // The next line of what is left. Where no line ends there, what is left is moved to the buffer's start, for more to
    // be read behind it; where it fills the buffer, the line is too long.
    pub fn next_line(self, buf: &mut [u8]) -> Line
        requires { Within self buf.old × (0 < length buf.old) }
        ensures { Handed buf.old self buf.new result }
    {
        let Cursor {
            from,
            have,
            passing,
        } = self;
        if let Some(bytes) = newline_in(&buf[from..have]) {
            let end = from + bytes;
            let rest = Cursor {
                from: end + 1,
                have,
                passing: false,
            };
            if passing {
                return Line::TooLong(rest);
            }
            return Line::At { from, end, rest };
        }
        let bytes = have - from;
        if passing || bytes == buf.len() {
            return Line::More(Cursor {
                from: 0,
                have: 0,
                passing: true,
            });
        }
        buf.copy_within(from..have, 0);
        Line::More(Cursor {
            from: 0,
            have: bytes,
            passing: false,
        })
    }

    // Reads once, behind what is left.
    pub fn read<R: Read>(self, reader: &mut R, buf: &mut [u8]) -> io::Result<Option<Self>>
        requires { Within self buf.old × (self.have < length buf.old) }
        ensures brought { Brought buf.old self buf.new result }
        ensures given { Gave (R.remaining reader.old) (R.remaining reader.new) self buf.new result }
    {
        meant(reader.read(&mut buf[self.have..]), self)
    }

    // What is left where the input has ended: a last line may lack its newline.
    pub fn last(self) -> Tail
        ensures { result ≡ tail_of self }
    {
        if self.passing {
            Tail::TooLong
        } else if self.from == self.have {
            Tail::Nothing
        } else {
            Tail::At {
                from: self.from,
                end: self.have,
            }
        }
    }
}
