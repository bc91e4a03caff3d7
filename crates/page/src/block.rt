// A block of 8 by 8 on the page.
ghost use Rattle.std.specs.Prelude.{◌≡◌, ◌<◌};
ghost use Rattle.integers.specs.Sum.{at};
ghost use Rattle.fates.specs.Fate.{fate_at, block_tally, Most};
ghost use Rattle.page.specs.Judged.{Judged};

use fates::{Fate, Tally, became};
use refusals::ranges::Qp;
use std::fmt::{Display, Formatter, Result, Write};

// Samples right-aligned in four bytes each, with a blank behind each.
#[derive(Clone, Copy)]
struct Row<'a>(&'a [u16]);

impl Display for Row<'_> {
    fn fmt<W: Write>(&self, f: &mut Formatter<W>) -> Result {
        for sample in self.0 {
            write!(f, "{sample:>4} ")?;
        }
        Ok(())
    }
}

// Eight rows: eight samples as the camera saw them, and eight as they are shown.
#[derive(Clone, Copy)]
pub struct Samples<'a> {
    pub seen: &'a [u16; 64],
    pub view: &'a [u16; 64],
}

impl Display for Samples<'_> {
    fn fmt<W: Write>(&self, f: &mut Formatter<W>) -> Result {
        let Samples { seen, view } = *self;
        for (seen, view) in seen.chunks_exact(8).zip(view.chunks_exact(8)) {
            let left = Row(seen);
            let right = Row(view);
            writeln!(f, "{left}    {right}")?;
        }
        Ok(())
    }
}

// The levels at a QP, beside the coefficients that they were made of and what became of each.
#[derive(Clone, Copy)]
pub struct Levels {
    pub coefficients: [i16; 96],
    pub levels: [i16; 96],
    pub qp: Qp,
    pub fates: [Fate; 64],
    pub ghost judged: { Judged qp.qp coefficients levels fates },
}

impl Levels {
    // Judged once, for the marks and the tally.
    pub fn of(coefficients: [i16; 96], levels: [i16; 96], qp: Qp) -> Levels
        ensures { (result.coefficients ≡ coefficients) × (result.levels ≡ levels) × (result.qp ≡ qp) }
    {
        let mut fates = [Fate::Nothing; 64];
        for i in 0..64 {
            fates[i] = became(coefficients[i], levels[i], qp);
        }
        Levels {
            coefficients,
            levels,
            qp,
            fates,
        }
    }

    // What became of the one at place i.
    fn fate(&self, i: usize) -> Fate
        requires { i < 64 }
        ensures { result ≡ fate_at self.now.qp.qp (at self.now.coefficients i) (at self.now.levels i) }
    {
        self.fates[i]
    }

    // How many were kept, lowered and dropped.
    pub fn tally(&self) -> Tally
        ensures { (result ≡ block_tally self.now.qp.qp self.now.coefficients self.now.levels) × Most 64 result }
    {
        let mut tally = Tally::default();
        for i in 0..64 {
            tally = tally.counting(self.fate(i));
        }
        tally
    }
}

fn mark(fate: Fate) -> char {
    match fate {
        Fate::Nothing | Fate::Kept => ' ',
        Fate::Lowered => 'v',
        Fate::Dropped => 'x',
        Fate::Other => '!',
    }
}

// Eight rows of eight, each right-aligned in six bytes with its mark behind it.
impl Display for Levels {
    fn fmt<W: Write>(&self, f: &mut Formatter<W>) -> Result {
        for i in 0..64 {
            let level = self.levels[i];
            let mark = mark(self.fate(i));
            let end = if i % 8 == 7 { "\n" } else { "" };
            write!(f, "{level:>6}{mark}{end}")?;
        }
        Ok(())
    }
}
