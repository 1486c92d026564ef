// A script of calls on one path, as bytes, for the host that runs the Rust beside us.
#![tactic(auto)]

pub mod answers;
pub mod calls;
pub mod run;
pub mod types;
