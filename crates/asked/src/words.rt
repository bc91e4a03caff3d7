// The words behind the program's name: a QP, lambda in millionths, and a height.
ghost use Rattle.std.specs.Prelude.{◌≤◌, IfOk, IfSome};

use crate::wrong::Wrong;
use encoder::usual;
use numerals::number::read_natural;
use std::env::{Env, FillError};

// Lambda is in millionths.
#[derive(Clone, Copy)]
pub struct Asked {
    pub qp: u32,
    pub millionths: u64,
    pub height: Option<u32>,
    pub ghost known: { (qp ≤ 63) × (millionths ≤ 8192000000) },
}

// Whether there is an i-th word, however long; the one before the first is the program's name.
fn has_word<R: Env>(rt: &R, i: usize) -> bool {
    let mut text = [0u8; 16];
    !matches!(rt.arg(i, &mut text), Err(FillError::NotPresent))
}

// The i-th word as a number, if there is one; where it is none up to `most`, that is wrong.
fn word<R: Env>(rt: &R, i: usize, most: u64, wrong: Wrong) -> Result<Option<u64>, Wrong>
    ensures { IfOk result (λ w. IfSome w (λ n. n ≤ most)) }
{
    let mut text = [0u8; 16];
    match rt.arg(i, &mut text) {
        Ok(n) => match read_natural(&text[..n], most) {
            Some(number) => Ok(Some(number)),
            None => Err(wrong),
        },
        Err(FillError::NotPresent) => Ok(None),
        Err(FillError::TooLong) => Err(wrong),
    }
}

pub fn read_words<R: Env>(rt: &R) -> Result<Asked, Wrong> {
    if has_word(rt, 4) {
        return Err(Wrong::Words);
    }
    let qp = word(rt, 1, 63, Wrong::Qp)?.unwrap_or(34) as u32;
    let millionths = word(rt, 2, 8192000000, Wrong::Lambda)?.unwrap_or(usual(qp));
    let height = word(rt, 3, 65535, Wrong::Height)?.map(|height| height as u32);
    Ok(Asked {
        qp,
        millionths,
        height,
    })
}
