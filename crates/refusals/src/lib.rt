// The answer to an event: the first refusal that applies, tried before the work of its kind, and document 01's number and
// value of an answer.
#![tactic(auto)]

pub mod refuse;
pub mod reply;
