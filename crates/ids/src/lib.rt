// The identifiers of a path: which comes next, which lapse counts, and how the four that it keeps move.
#![tactic(auto)]

ghost use Rattle.std.specs.Prelude.{◌≡◌};
ghost use Rattle.ring.specs.Ids.{taken_of, next_ids, newer, answered_ids, fresh_ids, thawed_ids, is_counted, missed_by};
ghost use Rattle.ring.specs.Ring.{drop_since};
ghost use Rattle.ring.specs.Lapse.{is_padded};

use base::limits::PATH_PROBE_MIN_SIZE;
use ring::ring::counts;
use ring::types::{Ids, Sent};

// The identifier that the next probe takes: the draw is used for the first only.
pub fn taken(next: Option<u32>, draw: u32) -> u32
    ensures { result ≡ taken_of next draw }
{
    next.unwrap_or(draw)
}

// The identifiers once a probe has taken id: each later one adds 1 modulo 2^32.
pub fn next_ids(ids: Ids, id: u32) -> Ids
    ensures { result ≡ next_ids ids id }
{
    Ids {
        next_id: Some(id.wrapping_add(1)),
        ..ids
    }
}

// The identifiers before a send: since is dropped if every waiting probe counts.
pub fn drop_since(ids: Ids, ring: &[Sent]) -> Ids
    ensures { result ≡ drop_since ids ring.now }
{
    if ring::ring::all_count(ring, ids.since) {
        Ids { since: None, ..ids }
    } else {
        ids
    }
}

// The newest identifier answered in time: it moves only from none or to a later one.
fn newest(answered: Option<u32>, id: u32) -> u32
    ensures { result ≡ newer answered id }
{
    match answered {
        Some(a) if !base::serial::after(id, a) => a,
        _ => id,
    }
}

// The identifiers after an answer in time to id.
pub fn answered_ids(ids: Ids, id: u32) -> Ids
    ensures { result ≡ answered_ids ids id }
{
    Ids {
        answered: Some(newest(ids.answered, id)),
        ..ids
    }
}

// The identifiers after `fresh`: the epoch is the next identifier.
pub fn fresh_ids(ids: Ids) -> Ids
    ensures { result ≡ fresh_ids ids }
{
    Ids {
        epoch: ids.next_id,
        ..ids
    }
}

// The identifiers after `thaw`: since is the next identifier.
pub fn thawed_ids(ids: Ids) -> Ids
    ensures { result ≡ thawed_ids ids }
{
    Ids {
        since: ids.next_id,
        ..ids
    }
}

// Whether the lapse of id is a miss: the identifier counts, and answered is not after it.
pub fn counted(ids: Ids, id: u32) -> bool
    ensures { result ≡ is_counted ids id }
{
    counts(ids.since, id) && counts(ids.answered, id)
}

// Whether the lapse of the probe sets `fallen`: above 27 bytes, and the epoch is not after its identifier.
pub fn padded(ids: Ids, s: Sent) -> bool
    ensures { result ≡ is_padded ids s }
{
    PATH_PROBE_MIN_SIZE < s.len && counts(ids.epoch, s.probe_id)
}

// The misses with one more, or as they are; they stop at 2^32 - 1.
pub fn missed(misses: u32, miss: bool) -> u32
    ensures { result ≡ missed_by misses miss }
{
    if miss {
        misses.saturating_add(1)
    } else {
        misses
    }
}
