// The records of an event file that lie whole within the bytes held: an event and a line for each. The definitions say
// what a session over the file's portions reads and writes.
#![tactic(auto)]

pub mod run;
pub mod types;
