// An encoder's lambda at a QP, as the `label` program takes it where none is given: the definition's, in millionths.
#![tactic(auto)]

ghost use Rattle.std.specs.Prelude.{◌≡◌, ◌≤◌};
ghost use Rattle.encoder.specs.Lambda.{third, usual_of};

#[tactic(auto, unfolding(crate::specs::Lambda::third))]
fn root(k: u32) -> u64
    ensures { (result ≡ third k) × (result ≤ 904819) }
{
    match k {
        0 => 570000,
        1 => 718155,
        _ => 904819,
    }
}

// An encoder's lambda, in millionths.
pub fn usual(qp: u32) -> u64
    requires { qp ≤ 63 }
    ensures { (result ≡ usual_of qp) × (result ≤ 8192000000) }
{
    let power = 1u64 << (qp / 3);
    (root(qp % 3) * power + 128) / 256
}
