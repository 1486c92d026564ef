// The probe that lapses: the first whose due has passed and that no data defers (the Rust's `defer` and the loop of
// `expire`).
#![tactic(auto)]

ghost use Rattle.std.specs.Prelude.{◌≡◌};
ghost use Rattle.std.specs.List.{position_from};
ghost use Rattle.ring.specs.Lapse.{passed_at, is_passed, defer_of, scan_of};

use base::time::deadline;
use ring::types::{RING, Scanned, Sent};

// Whether a due instant has passed. `now` and `overdue` stay two arguments, as in `is_passed` of specs/Lapse.antt.
fn passed(due: u64, now: u64, overdue: bool) -> bool
    ensures { result ≡ passed_at now overdue due }
{
    if overdue { due < now } else { due <= now }
}

// Whether the entry waits and its due has passed.
pub fn is_passed(s: Sent, now: u64, overdue: bool) -> bool
    ensures { result ≡ is_passed now overdue s }
{
    s.used && passed(s.due, now, overdue)
}

// The place of the first probe whose due has passed.
fn first_passed(ring: &[Sent], now: u64, overdue: bool) -> Option<usize>
    ensures { result ≡ position_from (is_passed now overdue) 0 ring.now }
{
    ring.iter().position(|s| is_passed(*s, now, overdue))
}

// The due that a probe gets in place of its own where data arrived after it was sent, unless that has passed too.
pub fn defer(s: Sent, data_at: Option<u64>, cap: u64, now: u64, overdue: bool) -> Option<u64>
    ensures { result ≡ defer_of data_at cap now overdue s }
{
    if data_at? <= s.at {
        return None;
    }
    let until = deadline(s.at, cap);
    if passed(until, now, overdue) {
        None
    } else {
        Some(until)
    }
}

// Defers probes, and gives the place of the one that lapses.
pub fn scan(ring: [Sent; RING], data_at: Option<u64>, cap: u64, now: u64, overdue: bool) -> Scanned
    ensures { result ≡ scan_of (is_passed now overdue) (defer_of data_at cap now overdue) ring }
{
    let mut left = ring;
    let slot = loop {
        let Some(i) = first_passed(&left, now, overdue) else {
            break RING;
        };
        let Some(until) = defer(left[i], data_at, cap, now, overdue) else {
            break i;
        };
        left[i].due = until;
    };
    Scanned { ring: left, slot }
}
