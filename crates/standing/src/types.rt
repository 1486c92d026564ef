// The standing of a path, the fields that it is written as, and what a writer says.
use base::types::*;

// What is told of a path: its round trips, its proven size, its newest answered identifier, its silence clock, its ETX
// and its misses.
#[derive(Clone, Copy)]
pub struct Standing {
    pub last: Option<u64>,
    pub least: Option<u64>,
    pub base: Option<u64>,
    pub quiet: Option<u64>,
    pub etx: f64,
    pub answered: Option<u32>,
    pub misses: u32,
    pub proven: Option<u16>,
}

// A field: its number, where it is there, and its width in bytes.
#[derive(Clone, Copy)]
pub struct Field {
    pub value: Option<u64>,
    pub width: u8,
}
