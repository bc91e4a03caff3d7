// Request lines, read: a line's words, and the fields, list and samples behind the verb. What a whole line asks for is
// one definition, `asked` of specs/Request.antt; each reader is an equation with a part of it, and proofs/Asked.antt
// joins them.
#![tactic(auto)]

pub mod kinds;
pub mod request;
pub mod words;
