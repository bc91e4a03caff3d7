// The call where the room for what is shown is lent, once accepted and once refused, of a coder that is easily followed.
ghost use Rattle.std.specs.Prelude.{reverse};
ghost use Rattle.integers.specs.Sum.{at};
ghost use Rattle.refusals.specs.Faults.{accepted};

use crate::{Coder, code_components};
use coding::Mode;
use components::Request;
use price::Settings;
use refusals::{Component, Refused, Three};
use std::test::Fail;

// Answers a component's first residual, and turns its part round.
#[derive(Clone, Copy)]
struct Round;

impl Coder for Round {
    type Share = i16;

    ghost wide = { 3 };

    ghost answer = { λ coder t q k r. accepted (at r 0) };

    ghost left = { λ coder t q k r. reverse r };

    fn code(
        &self,
        part: &mut [i16],
        residuals: &[i16],
        _shown: &mut [i16],
        _costs: &[u64; 28],
        _q: Request,
        _component: Component,
    ) -> Result<i16, Refused> {
        part.reverse();
        Ok(*residuals.first().unwrap_or(&0))
    }
}

fn asked(log2_luma: usize) -> Request {
    let settings = Settings {
        qp: 34,
        lambda: 20.0,
    };
    Request {
        log2_luma,
        settings: Three {
            y: settings,
            u: settings,
            v: settings,
        },
        run: 7,
        intra_slice: true,
        intra_coded: true,
        mode: Mode::Walk,
    }
}

// Y of 16 places, U and V of 4, and one behind them.
const LENT: [i16; 25] = [
    1, 2, 3, 4, 5, 6, 7, 8, 9, 10, 11, 12, 13, 14, 15, 16, 17, 18, 19, 20, 21, 22, 23, 24, 25,
];

const TURNED: [i16; 25] = [
    16, 15, 14, 13, 12, 11, 10, 9, 8, 7, 6, 5, 4, 3, 2, 1, 20, 19, 18, 17, 24, 23, 22, 21, 25,
];

#[test]
fn codes_in_a_lent_room_and_refuses(rt: HostRuntime) -> Result<(), Fail> {
    let mut buffer = LENT;
    let mut shown = [0i16; 3];
    let costs = [32768u64; 28];
    let refused = code_components(&Round, &mut buffer, &mut shown, &costs, asked(6));
    assert!(rt; refused.is_err());
    assert_eq!(rt; buffer, LENT);
    let Ok(shares) = code_components(&Round, &mut buffer, &mut shown, &costs, asked(2)) else {
        return Err(Fail::new("refused"));
    };
    assert_eq!(rt; (shares.y, shares.u, shares.v), (1, 17, 21));
    assert_eq!(rt; buffer, TURNED);
    Ok(())
}
