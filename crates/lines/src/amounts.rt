// What the lines say of amounts that are no whole numbers, and of places.
use std::fmt::{Display, Formatter, Result, Write};

// Printed with six decimals.
#[derive(Clone, Copy)]
pub struct Millionths(pub u64);

impl Display for Millionths {
    fn fmt<W: Write>(&self, f: &mut Formatter<W>) -> Result {
        let units = self.0 / 1000000;
        let rest = self.0 % 1000000;
        write!(f, "{units}.{rest:06}")
    }
}

// In units of 2^-30: the units with two decimals.
#[derive(Clone, Copy)]
pub struct Price(pub u64);

impl Display for Price {
    fn fmt<W: Write>(&self, f: &mut Formatter<W>) -> Result {
        let units = self.0 >> 30;
        let hundredths = self.0 % 1073741824 * 100 >> 30;
        write!(f, "{units}.{hundredths:02}")
    }
}

// A sample of the whole picture by its row and column, how far it is off, and what the camera saw there.
#[derive(Clone, Copy)]
pub struct Place {
    pub most: u16,
    pub row: usize,
    pub column: usize,
    pub seen: u16,
}

impl Display for Place {
    fn fmt<W: Write>(&self, f: &mut Formatter<W>) -> Result {
        let Place {
            most,
            row,
            column,
            seen,
        } = *self;
        write!(
            f,
            "{most}, in row {row}, column {column}, where the camera saw {seen}"
        )
    }
}
