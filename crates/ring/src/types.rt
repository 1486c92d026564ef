// What the ring and the late list hold, the identifiers of a path, and what a scan for a lapse leaves.

// The places of the ring: probes that wait at once.
pub const RING: usize = 8;

// The places of the late list: lapsed probes whose answers are still known.
pub const LATE: usize = 4;

// One probe sent on a path, as the Rust's `Sent`; a free place has `used` clear and all else 0. A flag, and no
// `Option`: a place with the flag clear and other numbers is taken as free too.
#[derive(Clone, Copy)]
pub struct Sent {
    pub at: u64,
    pub due: u64,
    pub probe_id: u32,
    pub len: u16,
    pub used: bool,
}

// The identifiers that a path keeps: the next, the newest answered in time, the first of the current state, and the
// first that counts.
#[derive(Clone, Copy)]
pub struct Ids {
    pub next_id: Option<u32>,
    pub answered: Option<u32>,
    pub epoch: Option<u32>,
    pub since: Option<u32>,
}

// A ring and a place of it, 8 for none: what a scan for the probe that lapses leaves. A number, as `scan_of` of
// specs/Lapse.antt builds it.
#[derive(Clone, Copy)]
pub struct Scanned {
    pub ring: [Sent; RING],
    pub slot: usize,
}
