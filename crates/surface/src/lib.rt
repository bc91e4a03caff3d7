// What crosses to C and Rust: flat numbers made the inputs of a call, and its answer made flat numbers. Which call the
// numbers ask for, and what it leaves, is defined in specs/; proofs/ has examples of both, computed. `wire` makes the
// calls, and its contracts and those of the exports are records of these definitions.
#![tactic(auto)]

ghost use Rattle.std.specs.Prelude.{◌≡◌, ◌<◌};
ghost use Rattle.refusals.specs.Faults.{verdict_outcome};
ghost use Rattle.runs.specs.Call.{write_outcome};
ghost use Rattle.coding.specs.Call.{quant_outcome};
ghost use Rattle.components.specs.Call.{sub_block_outcome};
ghost use Rattle.heights.specs.Call.{measure_outcome};
ghost use Rattle.guarding.specs.Call.{guarded_outcome};
ghost use Rattle.surface.specs.Surface.{result_of, mode_in, coding_by, quant_written, request_by, settings_in, three_written};
ghost use Rattle.surface.specs.Surface.{heights_in, heights_by, guarded_written, measure_written, write_written};

use coding::{Coded, Coding, Mode};
use components::Request;
use guarding::Guarded;
use heights::{Extremes, Heights};
use price::Settings;
use refusals::{Component, Refusal, Refused, Three};

// What a call that answers a verdict alone has said, as its result.
pub fn result_of(verdict: Result<(), Refusal>) -> u32
    ensures { result ≡ result_of (verdict_outcome verdict) }
{
    match verdict {
        Ok(()) => 0,
        Err(why) => u32::from(why),
    }
}

// Bit 2 of the flags.
fn mode_of(flags: u32) -> Mode
    ensures { result ≡ mode_in flags }
{
    if flags / 4 % 2 == 1 {
        Mode::Least
    } else {
        Mode::Walk
    }
}

// A component's settings among those of Y, U, V.
fn settings_of(qp: &[u32; 3], lambda: &[f64; 3], k: usize) -> Settings
    requires { k < 3 }
    ensures { result ≡ settings_in qp.now lambda.now k }
{
    Settings {
        qp: qp[k],
        lambda: lambda[k],
    }
}

pub fn coding_of(component: Component, log2_side: usize, qp: u32, lambda: f64, flags: u32) -> Coding
    ensures { result ≡ coding_by component log2_side qp lambda flags }
{
    Coding {
        log2: log2_side,
        component,
        settings: Settings { qp, lambda },
        intra_slice: flags % 2 == 1,
        intra_coded: flags / 2 % 2 == 1,
        mode: mode_of(flags),
    }
}

// What the quantiser answered, as its result and its answer.
// Kept: answers as arrays of numbers, here and below: they are the C interface.
pub fn put_quant(coded: Result<Coded, Refused>, answer: &mut [u64; 3]) -> u32
    ensures result { result ≡ result_of (quant_outcome coded) }
    ensures answer { answer.new ≡ quant_written (quant_outcome coded) }
{
    match coded {
        Ok(c) => {
            *answer = [0, u64::from(c.count), c.price];
            0
        }
        Err(r) => {
            *answer = [u64::from(u32::from(r.component)), 0, 0];
            u32::from(r.why)
        }
    }
}

pub fn request_of(
    log2_luma: usize,
    qp: &[u32; 3],
    lambda: &[f64; 3],
    run: u32,
    flags: u32,
) -> Request
    ensures { result ≡ request_by log2_luma qp.now lambda.now run flags }
{
    Request {
        log2_luma,
        settings: Three {
            y: settings_of(qp, lambda, 0),
            u: settings_of(qp, lambda, 1),
            v: settings_of(qp, lambda, 2),
        },
        run,
        intra_slice: flags % 2 == 1,
        intra_coded: flags / 2 % 2 == 1,
        mode: mode_of(flags),
    }
}

// What the three-component call answered, as its result and its answer.
pub fn put_three(coded: Result<Three<Coded>, Refused>, answer: &mut [u64; 7]) -> u32
    ensures result { result ≡ result_of (sub_block_outcome coded) }
    ensures answer { answer.new ≡ three_written (sub_block_outcome coded) }
{
    match coded {
        Ok(Three { y, u, v }) => {
            *answer = [
                0,
                u64::from(y.count),
                u64::from(u.count),
                u64::from(v.count),
                y.price,
                u.price,
                v.price,
            ];
            0
        }
        Err(r) => {
            *answer = [u64::from(u32::from(r.component)), 0, 0, 0, 0, 0, 0];
            u32::from(r.why)
        }
    }
}

// A component's heights among six, of Y, U, V darker, then of Y, U, V lighter.
fn height_of(heights: &[u32; 6], k: usize) -> Heights
    requires { k < 3 }
    ensures { result ≡ heights_in heights.now k }
{
    Heights {
        darker: heights[k],
        lighter: heights[3 + k],
    }
}

pub fn heights_of(heights: &[u32; 6]) -> Three<Heights>
    ensures { result ≡ heights_by heights.now }
{
    Three {
        y: height_of(heights, 0),
        u: height_of(heights, 1),
        v: height_of(heights, 2),
    }
}

// What the guarded call answered, as its result and its answer.
pub fn put_guarded(coded: Result<Three<Guarded>, Refused>, answer: &mut [u64; 13]) -> u32
    ensures result { result ≡ result_of (guarded_outcome coded) }
    ensures answer { answer.new ≡ guarded_written (guarded_outcome coded) }
{
    match coded {
        Ok(Three { y, u, v }) => {
            *answer = [
                0,
                u64::from(y.count),
                u64::from(u.count),
                u64::from(v.count),
                y.price,
                u.price,
                v.price,
                u64::from(y.darker),
                u64::from(u.darker),
                u64::from(v.darker),
                u64::from(y.lighter),
                u64::from(u.lighter),
                u64::from(v.lighter),
            ];
            0
        }
        Err(r) => {
            *answer = [0; 13];
            answer[0] = u64::from(u32::from(r.component));
            u32::from(r.why)
        }
    }
}

// What `measure` answered, as its result and its answer.
pub fn put_measure(measured: Result<Extremes, Refusal>, answer: &mut [u64; 2]) -> u32
    ensures result { result ≡ result_of (measure_outcome measured) }
    ensures answer { answer.new ≡ measure_written (measure_outcome measured) }
{
    match measured {
        Ok(e) => {
            *answer = [u64::from(e.darker), u64::from(e.lighter)];
            0
        }
        Err(why) => {
            *answer = [0, 0];
            u32::from(why)
        }
    }
}

// What the writer of symbols answered, as its result and its answer.
pub fn put_write(written: Result<usize, Refusal>, answer: &mut [u64; 1]) -> u32
    ensures result { result ≡ result_of (write_outcome written) }
    ensures answer { answer.new ≡ write_written (write_outcome written) }
{
    match written {
        Ok(count) => {
            *answer = [count as u64];
            0
        }
        Err(why) => {
            *answer = [0];
            u32::from(why)
        }
    }
}
