// The questions of a choice, asked of a field in rows: a key for each rival, and the least of eight keys, which is the
// answer.
#![tactic(auto)]

pub mod keys;
pub mod least;
pub mod row;
