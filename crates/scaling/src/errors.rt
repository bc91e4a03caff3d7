// The square of a magnitude's error: its distortion.
ghost use Rattle.std.specs.Prelude.{◌≤◌, ◌*◌};
ghost use Rattle.scaling.specs.Inner.Scale.{Near, Distortion};

use crate::scale::Scale;

impl Scale {
    // The square of the error of magnitude a. No branch is left in it: above l the quotient is rounded up instead of
    // down.
    pub fn squared(self, l: u64, a: u64) -> u64
        requires { Near self l a }
        ensures { Distortion self l a result }
    {
        let s = a * self.unit;
        let up = if s <= l { 0 } else { 1048575 };
        let x = (l.abs_diff(s) * self.error + up) / 1048576;
        x * x
    }

    // The same for a magnitude that does not pass l.
    pub fn squared_below(self, l: u64, a: u64) -> u64
        requires { Near self l a × (a * self.unit ≤ l) }
        ensures { Distortion self l a result }
    {
        let x = (l - a * self.unit) * self.error / 1048576;
        x * x
    }
}
