// Answers requests: for each line of standard input a line of standard output, `malformed` where it is longer than
// 65,535 bytes. It ends where the input ends, or where it can't read or write, which it says on standard error.
#![tactic(auto)]

ghost use Rattle.std.specs.Prelude.{◌<◌, length};
ghost use Rattle.input.specs.Lines.{Within};

use input::{Cursor, Line, Tail};
use std::io::{Input, Print, Read};
use std::{fmt, io};

// Why it has ended before the input.
#[derive(Drop)]
enum Failure {
    Unread(io::Error),
    Unwritten(io::Error),
}

impl fmt::Display for Failure {
    fn fmt<W: fmt::Write>(&self, f: &mut fmt::Formatter<W>) -> fmt::Result {
        match self {
            Failure::Unread(why) => write!(f, "standard input: {why}"),
            Failure::Unwritten(why) => write!(f, "standard output: {why}"),
        }
    }
}

// Writes the answer and a newline. A line without bytes is malformed, and so is one that was passed over.
fn answer<W: Print>(out: &W, line: &[u8], text: &mut [u8; 65536]) -> Result<(), Failure> {
    let n = protocol::answer(line, text);
    text[n] = b'\n';
    let whole: &[u8] = text;
    out.write_all(&whole[..n + 1]).map_err(Failure::Unwritten)
}

// What stands behind the last newline.
fn answer_last<W: Print>(
    out: &W,
    buf: &[u8],
    c: Cursor,
    text: &mut [u8; 65536],
) -> Result<(), Failure>
    requires { Within c buf.now }
{
    match c.last() {
        Tail::At { from, end } => answer(out, &buf[from..end], text),
        Tail::TooLong => answer(out, b"", text),
        Tail::Nothing => Ok(()),
    }
}

// The loop counts its turns, up to a number that no run uses up: it ends at the end of the input.
fn answer_all<R: Read, W: Print>(
    reader: &mut R,
    out: &W,
    buf: &mut [u8],
    text: &mut [u8; 65536],
) -> Result<(), Failure>
    requires { 0 < length buf.old }
{
    let mut c = Cursor::start();
    for _ in 0..u64::MAX {
        match c.next_line(buf) {
            Line::At { from, end, rest } => {
                answer(out, &buf[from..end], text)?;
                c = rest;
            }
            Line::TooLong(rest) => {
                answer(out, b"", text)?;
                c = rest;
            }
            Line::More(rest) => match rest.read(reader, buf).map_err(Failure::Unread)? {
                Some(more) => c = more,
                None => return answer_last(out, buf, rest, text),
            },
        }
    }
    Ok(())
}

fn main(rt: HostRuntime) {
    let mut buf = [0u8; 65536];
    let mut text = [0u8; 65536];
    if let Err(why) = answer_all(&mut rt.reader(), &rt.stdout(), &mut buf, &mut text) {
        let _ = rt.stderr().println(format_args!("tq: {why}"));
    }
}
