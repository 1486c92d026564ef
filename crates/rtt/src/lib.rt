// The round trips of a path: what is kept of them, by the definitions of samples and spans; and the timeout.
#![tactic(auto)]

pub mod marked;
pub mod times;
pub mod types;
