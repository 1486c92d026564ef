// A path's stop: when its next probe may go, and how its gaps grow.
ghost use Rattle.std.specs.Prelude.{◌≡◌};
ghost use Rattle.stop.specs.Silence.{from_of, quiet_from, until_of, first_stop, halt_of, is_before, gap_after, spent_stop, spend_of, marked_of, owe_of, rebased_stop, rebase_of, stopped_of, held_until, recheck_of};

use crate::types::{Silence, Stop};
use base::time::deadline;

// The least wait before each of the first two probes of a stop.
const PATH_DEAD_PROBE_INTERVAL_MIN: u64 = 1_000_000_000;
// The cap on the doubling gap.
const PATH_DEAD_PROBE_INTERVAL_MAX: u64 = 30_000_000_000;
// How long after it went silent a path is rechecked.
const PATH_DEAD_RECHECK_SPAN: u64 = 30_000_000_000;

// The instant that there is, else `at`.
pub fn from(quiet: Option<u64>, at: u64) -> u64
    ensures { result ≡ from_of quiet at }
{
    quiet.unwrap_or(at)
}

// The silence after a send: the first send's instant stays.
pub fn quiet_from(s: Silence, at: u64) -> Silence
    ensures { result ≡ quiet_from s at }
{
    Silence {
        quiet: Some(from(s.quiet, at)),
        ..s
    }
}

// The instant until which a path that stops is rechecked, if it is the active one.
fn until(quiet: Option<u64>, at: u64, active: bool) -> Option<u64>
    ensures { result ≡ until_of quiet at active }
{
    active.then(|| deadline(from(quiet, at), PATH_DEAD_RECHECK_SPAN))
}

// The stop of a path that stops answering at `at`.
fn first_stop(quiet: Option<u64>, at: u64, active: bool) -> Stop
    ensures { result ≡ first_stop quiet at active }
{
    Stop {
        free: deadline(at, PATH_DEAD_PROBE_INTERVAL_MIN),
        gap: PATH_DEAD_PROBE_INTERVAL_MIN,
        used: PATH_DEAD_PROBE_INTERVAL_MIN,
        until: until(quiet, at, active),
        owed: false,
    }
}

// The path stops answering at `at`, unless it already has.
pub fn halt(s: Silence, at: u64, active: bool) -> Silence
    ensures { result ≡ halt_of s at active }
{
    let new = first_stop(s.quiet, at, active);
    Silence {
        stop: s.stop.or(Some(new)),
        ..s
    }
}

// Whether `at` is before an instant that there is.
fn is_before(at: u64, end: Option<u64>) -> bool
    ensures { result ≡ is_before at end }
{
    end.is_some_and(|u| at < u)
}

// The gap after a slot used at `at`: the least one while the path is rechecked, else doubled up to the cap.
fn gap_after(x: Stop, at: u64) -> u64
    ensures { result ≡ gap_after at x }
{
    if is_before(at, x.until) {
        PATH_DEAD_PROBE_INTERVAL_MIN
    } else {
        x.gap.saturating_mul(2).min(PATH_DEAD_PROBE_INTERVAL_MAX)
    }
}

// A stop after a slot used at `at`.
fn spent(x: Stop, at: u64) -> Stop
    ensures { result ≡ spent_stop at x }
{
    Stop {
        free: deadline(at, x.gap),
        gap: gap_after(x, at),
        used: x.gap,
        owed: false,
        ..x
    }
}

// A slot of a stopped path is used at `at`.
pub fn spend(s: Silence, at: u64) -> Silence
    ensures { result ≡ spend_of s at }
{
    Silence {
        stop: s.stop.map(|x| spent(x, at)),
        ..s
    }
}

// A stop with its owed mark set to `owed` and its free instant to `free`.
fn marked(x: Stop, free: u64, owed: bool) -> Stop
    ensures { result ≡ marked_of x free owed }
{
    Stop { free, owed, ..x }
}

// The latest slot of a stopped path is owed to a connection.
pub fn owe(s: Silence) -> Silence
    ensures { result ≡ owe_of s }
{
    Silence {
        stop: s.stop.map(|x| marked(x, x.free, true)),
        ..s
    }
}

// A stop whose owed slot is settled at `at`: opened or not.
fn rebased(x: Stop, at: u64, ok: bool) -> Stop
    ensures { result ≡ rebased_stop at ok x }
{
    if !x.owed {
        return x;
    }
    let free = if ok {
        x.free.max(deadline(at, x.used))
    } else {
        x.free
    };
    marked(x, free, false)
}

// The connection that a slot is owed to is settled at `at`.
pub fn rebase(s: Silence, at: u64, ok: bool) -> Silence
    ensures { result ≡ rebase_of s at ok }
{
    Silence {
        stop: s.stop.map(|x| rebased(x, at, ok)),
        ..s
    }
}

// Whether the path has stopped answering.
pub fn stopped(s: Silence) -> bool
    ensures { result ≡ stopped_of s }
{
    s.stop.is_some()
}

// While the path is stopped, the instant from which its next probe may go.
pub fn held(s: Silence) -> Option<u64>
    ensures { result ≡ held_until s }
{
    s.stop.map(|x| x.free)
}

// While the path is stopped with a recheck, the least gap after its next probe.
pub fn recheck(s: Silence) -> Option<u64>
    ensures { result ≡ recheck_of s }
{
    let stop = s.stop?;
    stop.until.map(|_| stop.gap)
}
