// The parts of a path, as rows and words: what they say, and the row that says a given one.
#![tactic(auto)]

pub mod measures;
pub mod probes;
