// A call of a script, and what it makes.
use live::types::Liveness;

// One call: which method, and its numbers.
#[derive(Clone, Copy)]
pub struct Call {
    pub op: u64,
    pub a: u64,
    pub b: u64,
    pub c: u64,
    pub d: u64,
    pub e: u64,
}

// The path after a call, and the six numbers of its answer: the refusal number or 0, then the values.
#[derive(Clone, Copy)]
pub struct Called {
    pub path: Liveness,
    pub words: [u64; 6],
}
