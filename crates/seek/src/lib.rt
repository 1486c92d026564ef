// Which sizes a path carries: what is kept of the ladder and of the upward search, and the search's rules on sizes alone.
#![tactic(auto)]

pub mod sizing;
pub mod types;
