// The picture that is read from standard input.
ghost use Rattle.std.specs.Prelude.{◌≤◌, length, IfOk};

use crate::wrong::Wrong;
use pgm::{read_header, take_samples};
use picture::Size;
use std::io;
use std::io::Read;

// Its sides and its maxval.
#[derive(Clone, Copy)]
pub struct Picture {
    pub size: Size,
    pub most: u32,
}

// Reads until the buffer is full or the input ends; says how many bytes came.
fn read_all<R: Read>(reader: &mut R, buf: &mut [u8]) -> io::Result<usize>
    ensures { IfOk result (λ n. n ≤ length buf.new) }
{
    let mut have = 0;
    while have < buf.len() {
        let more = reader.read(&mut buf[have..])?;
        if more == 0 {
            return Ok(have);
        }
        have += more;
    }
    Ok(have)
}

// `bytes` has room for the picture as it comes, `camera` for its samples.
pub fn read_picture<R: Read>(
    reader: &mut R,
    bytes: &mut [u8],
    camera: &mut [u16],
) -> Result<Picture, Wrong>
    requires { 65536 ≤ length camera.old }
{
    let n = read_all(reader, bytes)?;
    if n == bytes.len() {
        return Err(Wrong::TooLong);
    }
    let bytes = &bytes[..n];
    let header = read_header(bytes)?;
    let n = header.size.area();
    take_samples(bytes, header.at, header.form, header.most, n, camera)?;
    Ok(Picture {
        size: header.size,
        most: header.most,
    })
}
