// How far a block, as the viewer makes it of its levels, lies from what the camera saw: how much darker a sample gets
// at most, and how much lighter. specs/ has both and the call that measures them, proofs/ what follows for what is
// shown over any guess; there is no function here: `measure` has the code.
#![tactic(auto)]

// As found: the largest darkening of a sample, and the largest lightening.
#[derive(Clone, Copy)]
pub struct Extremes {
    pub darker: u32,
    pub lighter: u32,
}

// As allowed: what the host wants no sample to exceed.
#[derive(Clone, Copy)]
pub struct Heights {
    pub darker: u32,
    pub lighter: u32,
}
