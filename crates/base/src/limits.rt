// Document 01's limits on numbers, each once.

// The longest length in bytes; a longer one is refused with 5.
pub const MAX_LEN: u32 = 65535;

// The smallest size of a probe: full and proved sizes below it are refused with 5, and what is proven lies above it or
// is it.
pub const PATH_PROBE_MIN_SIZE: u16 = 27;

// The same as the length that a caller names.
pub const MIN_LEN: u32 = PATH_PROBE_MIN_SIZE as u32;

// The first duration in nanoseconds that is too long, 2^62; from it on one is refused with 6.
pub const DURATION_END: u64 = 0x4000_0000_0000_0000;
