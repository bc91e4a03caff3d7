// The lines of the page of `label`, written to `out`, the program's standard output: its head, a block with its levels
// and what became of them, the sum, the two whole pictures and how far they lie apart, and the picture shown. Each
// function says whether all was written, or why not.
#![tactic(auto)]

ghost use Rattle.std.specs.Prelude.{◌≡◌, ◌<◌};

mod amounts;

use amounts::{Millionths, Place, Price};
use asked::{Asked, Picture};
use fates::Tally;
use guarding::Guarded;
use page::{Greys, Pgm, Samples};
use picture::Pictures;
use shown::{Worst, darkest, farthest};
use std::fmt::Display;
use std::io;
use std::io::Print;

// ---- the head
// What it tells: the picture's sides and maxval, and the QP, lambda in millionths and the height that were asked.
#[derive(Clone, Copy)]
pub struct Head {
    pub width: usize,
    pub height: usize,
    pub most: u32,
    pub qp: u32,
    pub millionths: u64,
    pub limit: Option<u32>,
}

impl Head {
    pub fn of(picture: Picture, asked: Asked) -> Head
        ensures picture { (result.width ≡ picture.size.width) × (result.height ≡ picture.size.height)
            × (result.most ≡ picture.most) }
        ensures asked { (result.qp ≡ asked.qp) × (result.millionths ≡ asked.millionths)
            × (result.limit ≡ asked.height) }
    {
        Head {
            width: picture.size.width,
            height: picture.size.height,
            most: picture.most,
            qp: asked.qp,
            millionths: asked.millionths,
            limit: asked.height,
        }
    }
}

fn put_asked<W: Print>(out: &W, head: Head) -> io::Result<()> {
    let Head {
        width,
        height,
        qp,
        ..
    } = head;
    let lambda = Millionths(head.millionths);
    print!(out;
        "A picture of {width} by {height} in blocks of 8 by 8, coded at QP {qp}, lambda {lambda}"
    )?;
    if let Some(limit) = head.limit {
        print!(out; ", height {limit}")?;
    }
    println!(out; ", and shown as the viewer shows it.")
}

// What was asked of a picture, and what the page has.
pub fn put_head<W: Print>(out: &W, head: Head) -> io::Result<()> {
    let most = head.most;
    put_asked(out, head)?;
    println!(out;
        "QP is the slice's plus 12; lambda is what a bit may cost, in squared error of samples of 8 bits."
    )?;
    if head.limit.is_some() {
        println!(out;
            "Height is how much darker and how much lighter than the camera saw it a sample may be shown."
        )?;
    }
    print!(out;
        "Samples are of 10 bits, 0 (black) to 1023 (white), scaled from the picture's 0 to {most}. Coded is the sample
less a guess, 700 everywhere. Left is what the camera saw, right what the viewer shows of the levels.
Where the picture ends inside a block its last column and row are repeated, and not compared.
Darker and lighter under a block are of all its samples, the repeated ones too, before they are clipped.
Under a block stand its levels by rows, one for each pattern: the coefficient by its step, to the
nearest (kept), one less (v: lowered), or 0 where that is not 0 (x: dropped). Others never come.
A price is squared error plus lambda times bits; in brackets as the call reports it, times 2^30.
"
    )
}

// ---- a block
// A block, counted from 0, as the camera saw it and as it is shown, and their largest difference.
pub fn put_block<W: Print>(
    out: &W,
    block: usize,
    samples: Samples<'_>,
    apart: u16,
) -> io::Result<()>
    requires { block < 1024 }
{
    let number = block + 1;
    print!(out;
        "
block {number}: camera                               shown
{samples}largest difference of a sample {apart}
"
    )
}

// What was made of a block: how far it is off, its levels, their fates, how many they are, and their price.
pub fn put_made<W: Print, L: Display>(
    out: &W,
    levels: &L,
    tally: Tally,
    coded: Guarded,
) -> io::Result<()> {
    let Guarded {
        count,
        price,
        darker,
        lighter,
    } = coded;
    let units = Price(price);
    print!(out;
        "darker by {darker} at most, lighter by {lighter} at most
{levels}{tally}; {count} levels, price {units} ({price})
"
    )
}

pub fn put_sum<W: Print>(out: &W, tally: Tally) -> io::Result<()> {
    print!(out; "\nin all: {tally}\n")
}

// ---- the two whole pictures
fn put_whole<W: Print>(out: &W, greys: Greys<'_>) -> io::Result<()> {
    let step = greys.step;
    print!(out;
        "
the whole as the camera saw it, and as it is shown; dark is @; a character stands for {step} by {step}:
{greys}"
    )
}

// The worst sample, and what the camera saw there.
fn place_of(pictures: Pictures<'_>, worst: Worst) -> Place
    requires { worst.at < 65536 }
{
    let Pictures { size, camera, .. } = pictures;
    Place {
        most: worst.most,
        row: worst.at / size.width,
        column: worst.at % size.width,
        seen: camera[worst.at],
    }
}

fn put_worst<W: Print>(out: &W, pictures: Pictures<'_>) -> io::Result<()> {
    let Pictures {
        size,
        camera,
        shown,
        ..
    } = pictures;
    let farthest = place_of(pictures, farthest(camera, shown, size.area()));
    let darkest = place_of(pictures, darkest(camera, shown, size.area()));
    print!(out;
        "largest difference of a sample in the whole {farthest}; both count from 0.
largest darkening of a sample in the whole {darkest}.
"
    )
}

// What is proved of how far a sample can be off.
fn put_proved<W: Print>(out: &W, height: Option<u32>) -> io::Result<()> {
    match height {
        Some(height) => print!(out;
            "No sample of an accepted block can be off by more than the height, {height}: \
            that is proved, before clipping
and any filter, with the picture's last column and row repeated outside.
"
        ),
        None => println!(out;
            "They are what came of this picture: nothing is proved of how large they can be."
        ),
    }
}

// All that stands behind the blocks.
pub fn put_shown<W: Print>(out: &W, pictures: Pictures<'_>, height: Option<u32>) -> io::Result<()> {
    put_whole(out, Greys::of(pictures))?;
    put_worst(out, pictures)?;
    put_proved(out, height)?;
    let pgm = Pgm::of(pictures);
    print!(out; "\nthe picture shown, as a PGM:\n{pgm}")
}
