// The whole pictures on the page.
ghost use Rattle.std.specs.Prelude.{◌≡◌, ◌+◌, ◌/◌, ◌≤◌, length};

use picture::{Pictures, Size};
use std::fmt::{Display, Formatter, Result, Write};

// A grey for each step-th sample of each step-th row.
#[derive(Clone, Copy)]
pub struct Greys<'a> {
    pub pictures: Pictures<'a>,
    pub step: usize,
    pub ghost some: { 1 ≤ step },
}

impl<'a> Greys<'a> {
    // Those that fit on a line, the two pictures beside each other.
    pub fn of(pictures: Pictures<'a>) -> Greys<'a>
        ensures { (result.step ≡ (pictures.entry.size.width + 55) / 56)
            × (result.pictures.camera.now ≡ pictures.entry.camera.now)
            × (result.pictures.shown.now ≡ pictures.entry.shown.now) }
    {
        let step = pictures.size.width.div_ceil(56);
        Greys { pictures, step }
    }
}

// Ten, from dark to light.
const GREYS: [char; 10] = ['@', '%', '#', '*', '+', '=', '-', ':', '.', ' '];

fn grey(sample: u16) -> char {
    *GREYS.get(usize::from(sample / 103)).unwrap_or(&' ')
}

// A row of them.
#[derive(Clone, Copy)]
struct Row<'a> {
    samples: &'a [u16],
    step: usize,
    ghost some: { 1 ≤ step },
}

impl Display for Row<'_> {
    fn fmt<W: Write>(&self, f: &mut Formatter<W>) -> Result {
        for sample in self.samples.iter().step_by(self.step) {
            f.write_char(grey(*sample))?;
        }
        Ok(())
    }
}

// Five columns lie between the two, but for the one that the rest of a row takes.
impl Display for Greys<'_> {
    fn fmt<W: Write>(&self, f: &mut Formatter<W>) -> Result {
        let Pictures {
            size,
            camera,
            shown,
            ..
        } = self.pictures;
        let step = self.step;
        let between = if size.width % step == 0 {
            "     "
        } else {
            "    "
        };
        let rows = camera
            .chunks_exact(size.width)
            .zip(shown.chunks_exact(size.width));
        for (seen, view) in rows.take(size.height).step_by(step) {
            let left = Row {
                samples: seen,
                step,
            };
            let right = Row {
                samples: view,
                step,
            };
            writeln!(f, "{left}{between}{right}")?;
        }
        Ok(())
    }
}

// A picture of 10 bits as P2 has it.
#[derive(Clone, Copy)]
pub struct Pgm<'a> {
    pub size: Size,
    pub samples: &'a [u16],
    pub ghost roomy: { 65536 ≤ length samples.now },
}

impl<'a> Pgm<'a> {
    // The one that is shown.
    pub fn of(pictures: Pictures<'a>) -> Pgm<'a>
        ensures { (result.size ≡ pictures.entry.size)
            × (result.samples.now ≡ pictures.entry.shown.now) }
    {
        Pgm {
            size: pictures.size,
            samples: pictures.shown,
        }
    }
}

// A row of it, in lines of up to 14 samples.
#[derive(Clone, Copy)]
struct Lines<'a>(&'a [u16]);

impl Display for Lines<'_> {
    fn fmt<W: Write>(&self, f: &mut Formatter<W>) -> Result {
        let n = self.0.len();
        for (x, sample) in self.0.iter().enumerate() {
            let behind = if x % 14 == 13 || x == n - 1 {
                '\n'
            } else {
                ' '
            };
            write!(f, "{sample:>4}{behind}")?;
        }
        Ok(())
    }
}

impl Display for Pgm<'_> {
    fn fmt<W: Write>(&self, f: &mut Formatter<W>) -> Result {
        let Pgm { size, samples, .. } = *self;
        let Size { width, height, .. } = size;
        write!(f, "P2\n{width} {height}\n1023\n")?;
        for row in samples.chunks_exact(width).take(height) {
            let lines = Lines(row);
            write!(f, "{lines}")?;
        }
        Ok(())
    }
}
