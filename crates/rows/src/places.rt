// Which row of a slot holds what; specs/Places.antt has what each word of a row is.

// The rows of a slot.
pub const ROWS: usize = 43;

// The late list, four rows; the ring's eight begin at 0.
pub const LATES_AT: usize = 8;

// The identifiers.
pub const IDS_AT: usize = 12;

// The silence clock, and the search's instant.
pub const CLOCKS_AT: usize = 13;

// The stop.
pub const STOP_AT: usize = 14;

// The stop's until, the ETX, the latest round trip.
pub const TRIPS_AT: usize = 15;

// The search, the lost and the proven size, the ladder.
pub const SEARCH_AT: usize = 16;

// The last frame and the last session datagram.
pub const ARRIVALS_AT: usize = 17;

// Frames and bytes, the samples' bits, the slot's marks, the misses.
pub const MARKS_AT: usize = 18;

// The samples, sixteen rows.
pub const SAMPLES_AT: usize = 19;

// The spans, eight rows.
pub const SPANS_AT: usize = 35;
