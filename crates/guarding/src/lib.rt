// The guarded block: the first of a block's candidates whose samples, as the viewer will show them, lie within the
// host's heights. Here are what the guarded call is asked and what it answers; specs/ has the candidates and the call,
// proofs/ what is promised. The code of the call is other crates'.
#![tactic(auto)]

// What was coded of a component, and how far its samples are off at most; 0 throughout for one that was not run.
#[derive(Clone, Copy)]
pub struct Guarded {
    pub count: u32,
    pub price: u64,
    pub darker: u32,
    pub lighter: u32,
}
