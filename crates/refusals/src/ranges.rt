// A side that a block may have and a QP that there is: a value of either type lies in its range, so that no function
// that takes one asks for that. What is outside is refused where the value is made, by its refusal.
ghost use Rattle.std.specs.Prelude.{◌≡◌, ◌≤◌, ◌^◌};
ghost use Rattle.refusals.specs.Sides.{most_log2, most_qp};

use crate::Refusal;

// By its log2: 2, 4, 8, 16 or 32.
#[derive(Clone, Copy)]
pub struct Side {
    pub log2: usize,
    pub ghost in_range: { (1 ≤ log2) × (log2 ≤ most_log2) },
}

#[derive(Clone, Copy)]
pub struct Qp {
    pub qp: u32,
    pub ghost in_range: { qp ≤ most_qp },
}

impl TryFrom<usize> for Side {
    ghost use Rattle.refusals.specs.Ranges.{SideOf};

    type Error = Refusal;

    ghost try_from_gives = { SideOf };

    fn try_from(log2: usize) -> Result<Side, Refusal> {
        if log2 < 1 || 5 < log2 {
            return Err(Refusal::Side);
        }
        Ok(Side { log2 })
    }
}

impl TryFrom<u32> for Qp {
    ghost use Rattle.refusals.specs.Ranges.{QpOf};

    type Error = Refusal;

    ghost try_from_gives = { QpOf };

    fn try_from(qp: u32) -> Result<Qp, Refusal> {
        if 63 < qp {
            return Err(Refusal::Qp);
        }
        Ok(Qp { qp })
    }
}

impl Side {
    // How many places it has. By cases, so that the compiler knows how many there can be.
    pub fn length(self) -> usize
        ensures { (result ≡ 2 ^ self.log2) × (result ≤ 32) }
    {
        match self.log2 {
            1 => 2,
            2 => 4,
            3 => 8,
            4 => 16,
            _ => 32,
        }
    }
}
