// One path's liveness: the Rust's `Liveness` and its methods, by value, as the callable face. A call outside document
// 01's limits is refused with the first number that applies, and returns the path as it came.
#![tactic(auto)]

pub mod answers;
pub mod path;
pub mod probe;
pub mod search;
pub mod times;
pub mod types;
