// What a first pass over a file's records tells.
use base::types::Refusal;

// How many events a file has, and how its records end.
#[derive(Clone, Copy)]
pub struct Scan {
    pub count: usize,
    pub end: Result<(), Refusal>,
}
