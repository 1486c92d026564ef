// The silence of a path, and its stop while it has stopped answering.
#![tactic(auto)]

pub mod silence;
pub mod types;
