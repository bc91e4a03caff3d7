// A picture, coded block by block as a recorder would code it and shown as the viewer will show it: each block of 8 by
// 8 as the camera saw it beside what is shown, with its levels under it and what was kept, lowered and dropped; then
// the whole picture so, and where the two lie farthest apart; and last the picture shown, as a PGM. The picture comes
// from standard input, as a PGM; the words behind the program's name are the QP, lambda in millionths, and the height
// that no sample may be off by more than. What is wrong is said on standard error, and nothing further is shown then.
#![tactic(auto)]

ghost use Rattle.std.specs.Prelude.{◌≤◌, length, IfOk};
ghost use Rattle.fates.specs.Fate.{Most};

mod stopped;

use asked::{Asked, Picture, read_picture, read_words};
use coding::Mode;
use components::Request;
use fates::Tally;
use guarded::guarded_sub_block;
use guarding::Guarded;
use heights::Heights;
use lines::{Head, put_block, put_head, put_made, put_shown, put_sum};
use page::{Levels, Samples};
use picture::{Block, Pictures, Size, by_rows};
use price::Settings;
use refusals::ranges::Qp;
use refusals::{Refusal, Refused, Three};
use residuals::{inverse, scale_back};
use shown::{block_apart, views};
use std::io::{Input, Print, Read};
use stopped::{Stopped, Unmade};
use transform::trans;

// Such costs as a recorder has after some blocks: run, level, last, cbf.
const COSTS: [u64; 28] = [
    21000, 48000, 37000, 26000, 21000, 48000, 37000, 26000, 18000, 52000, 24000, 40000, 18000,
    52000, 24000, 40000, 12000, 70000, 12000, 70000, 60000, 14000, 60000, 14000, 60000, 14000,
    60000, 14000,
];

// What no height exceeds.
const HIGHEST: u32 = 65535;

fn each<T: Copy>(value: T) -> Three<T> {
    Three {
        y: value,
        u: value,
        v: value,
    }
}

// Luma alone of an intra-coded block in an intra slice.
fn request(asked: Asked) -> Request {
    let settings = Settings {
        qp: asked.qp,
        lambda: asked.millionths as f64 / 1000000.0,
    };
    Request {
        log2_luma: 3,
        settings: each(settings),
        run: 1,
        intra_slice: true,
        intra_coded: true,
        mode: Mode::Walk,
    }
}

// Residuals become levels, none of which puts a sample farther off than the height.
fn code(block: &mut [i16; 96], asked: Asked) -> Result<Guarded, Refused> {
    let height = asked.height.unwrap_or(HIGHEST);
    let both = Heights {
        darker: height,
        lighter: height,
    };
    let costs = COSTS;
    let coded = guarded_sub_block(block, &costs, request(asked), each(both))?;
    Ok(coded.y)
}

// What the viewer makes of the levels: the residuals.
fn decode(block: &mut [i16; 96], qp: u32) -> Result<(), Refusal> {
    scale_back(block, 3, qp)?;
    inverse(block, 3, 3)
}

// What was made of a block: its levels, what is told of them, and the residuals that the viewer has.
#[derive(Clone, Copy)]
struct Made {
    levels: Levels,
    coded: Guarded,
    residuals: [i16; 96],
}

fn make(residuals: [i16; 96], block: Block, asked: Asked) -> Result<Made, Unmade> {
    let mut coefficients = residuals;
    trans(&mut coefficients, 3, 3).map_err(|_| Unmade::Transform)?;
    let mut levels = residuals;
    let coded = code(&mut levels, asked).map_err(|refused| match refused.why {
        Refusal::Height => Unmade::Height(block.number + 1),
        _ => Unmade::Quantiser,
    })?;
    let mut residuals = levels;
    decode(&mut residuals, asked.qp).map_err(|_| Unmade::Viewer)?;
    Ok(Made {
        levels: Levels::of(coefficients, levels, Qp { qp: asked.qp }),
        coded,
        residuals,
    })
}

// A block as the camera saw it, coded, kept as it is shown, and put on the page; and what became of its levels.
fn show_block<W: Print>(
    out: &W,
    camera: &[u16],
    kept: &mut [u16],
    block: Block,
    asked: Asked,
) -> Result<Tally, Stopped>
    requires { (65536 ≤ length camera.now) × (65536 ≤ length kept.old) }
    ensures { IfOk result (λ tally. Most 64 tally) }
{
    let seen = block.take(camera);
    let made = make(shown::residuals(&seen), block, asked)?;
    let view = views(&made.residuals);
    block.keep(kept, &view);
    let apart = block_apart(block, &seen, &view);
    let samples = Samples {
        seen: &seen,
        view: &view,
    };
    put_block(out, block.number, samples, apart)?;
    let tally = made.levels.tally();
    put_made(out, &made.levels, tally, made.coded)?;
    Ok(tally)
}

// Every block, one behind the other, and what became of all levels.
fn show_blocks<W: Print>(
    out: &W,
    camera: &[u16],
    kept: &mut [u16],
    size: Size,
    asked: Asked,
) -> Result<(), Stopped>
    requires { (65536 ≤ length camera.now) × (65536 ≤ length kept.old) }
{
    let mut tally = Tally::default();
    for number in 0..size.across() * size.down() {
        let block = Block { size, number };
        tally = tally + show_block(out, camera, kept, block, asked)?;
    }
    put_sum(out, tally)?;
    Ok(())
}

fn show_picture<W: Print>(
    out: &W,
    camera: &[u16; 65536],
    picture: Picture,
    asked: Asked,
) -> Result<(), Stopped> {
    let size = picture.size;
    let mut kept = [0u16; 65536];
    let mut shown = [0u16; 65536];
    put_head(out, Head::of(picture, asked))?;
    show_blocks(out, camera, &mut kept, size, asked)?;
    by_rows(&kept, size, &mut shown);
    let pictures = Pictures {
        size,
        camera,
        shown: &shown,
    };
    put_shown(out, pictures, asked.height)?;
    Ok(())
}

fn show<R: Read, W: Print>(reader: &mut R, out: &W, asked: Asked) -> Result<(), Stopped> {
    let mut bytes = [0u8; 524288];
    let mut camera = [0u16; 65536];
    let picture = read_picture(reader, &mut bytes, &mut camera)?;
    show_picture(out, &camera, picture, asked)
}

fn page_of(rt: &HostRuntime) -> Result<(), Stopped> {
    let asked = read_words(rt)?;
    show(&mut rt.reader(), &rt.stdout(), asked)
}

fn main(rt: HostRuntime) {
    if let Err(why) = page_of(&rt) {
        why.say(&rt.stderr());
    }
}
