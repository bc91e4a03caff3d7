// What the other crates lean on and the kit lacks: laws of the integers, of finite sums and of tests that are
// computed. Nothing here knows of pictures. There is no code: definitions stand in specs/, laws in proofs/.
#![tactic(auto)]
