// The upward size search of a live path: proposal, sending, acknowledgement and judgement.
#![tactic(auto)]

ghost use Rattle.std.specs.Prelude.{◌≡◌};
ghost use Rattle.seek.specs.Search.{search_size, sent_search, next_search, later_of, settled_of, end_of, lose_of, settled_search, acked_search, lost_now, judges_of, drop_of, judged_search, proven_sizes, fresh_sizes};

use base::limits::PATH_PROBE_MIN_SIZE;
use base::serial::after;
use base::time::deadline;
use seek::sizing::*;
use seek::types::{Judged, Proved, Proving, SEEK_RAISE, Seek, Settled, Sizes};

// The length of the next search probe, if one may go now. `let .. else` is document 01's form for it.
#[tactic(auto, unfolding(seek::specs::Search::search_size))]
pub fn seek_size(s: Sizes, full: u16, now: u64) -> Option<u16>
    ensures { result ≡ search_size s full now }
{
    if s.seek.len != 0 {
        return None;
    }
    let Some(size) = s.proven else {
        return None;
    };
    let Some(at) = s.seek.at else {
        return proposal(s.seek.lost, size, full);
    };
    if now < at {
        return None;
    }
    proposal(s.seek.lost, size, full)
}

// A search probe of `len` bytes is out from `at` on, under this identifier.
#[tactic(auto, unfolding(seek::specs::Search::sent_search))]
pub fn seek_send(s: Sizes, at: u64, len: u16, id: u32) -> Sizes
    ensures { result ≡ sent_search s at len id }
{
    let seek = Seek {
        at: Some(at),
        probe_id: id,
        len,
        ..s.seek
    };
    Sizes { seek, ..s }
}

// The next search probe may go `gap` after `at`; all else stays. For a search probe that is held in the ring.
#[tactic(auto, unfolding(seek::specs::Search::next_search))]
pub fn seek_next(mut s: Sizes, at: u64, gap: u64) -> Sizes
    ensures { result ≡ next_search s at gap }
{
    s.seek.at = Some(deadline(at, gap));
    s
}

// The instant `gap` later, if there is one.
fn later(at: Option<u64>, gap: u64) -> Option<u64>
    ensures { result ≡ later_of at gap }
{
    at.map(|t| deadline(t, gap))
}

// The probe that was out is taken: the next may go `gap` after it was sent.
fn unseek(seek: Seek, gap: u64) -> Seek
    ensures { result ≡ settled_of seek gap }
{
    Seek {
        at: later(seek.at, gap),
        len: 0,
        ..seek
    }
}

// Ends a search whose lost size is close to what is proven: it starts again 600 s from now.
fn end(seek: Seek, proven: u16, now: u64) -> Seek
    ensures { result ≡ end_of seek proven now }
{
    if !ended(seek.lost, proven) {
        return seek;
    }
    Seek {
        at: Some(deadline(now, SEEK_RAISE)),
        lost: 0,
        ..seek
    }
}

// The search has lost a probe of `len` bytes.
fn lose_size(seek: Seek, proven: u16, len: u16, now: u64) -> Seek
    ensures { result ≡ lose_of seek proven len now }
{
    let less = Seek {
        lost: lose(seek.lost, len),
        ..seek
    };
    end(less, proven, now)
}

// Settles the search probe if the identifier is that of the one out.
#[tactic(auto, unfolding(seek::specs::Search::settled_search))]
pub fn seek_answer(s: Sizes, id: u32, gap: u64) -> Settled
    ensures { result ≡ settled_search s id gap }
{
    if s.seek.len == 0 || s.seek.probe_id != id {
        return Settled {
            sizes: s,
            len: None,
        };
    }
    Settled {
        sizes: Sizes {
            seek: unseek(s.seek, gap),
            ..s
        },
        len: Some(s.seek.len),
    }
}

// An acknowledgement of `acked` bytes for a search probe of `sent`.
#[tactic(auto, unfolding(seek::specs::Search::acked_search))]
pub fn seek_proved(s: Sizes, sent: u16, acked: u16, now: u64) -> Proved
    ensures { result ≡ acked_search s sent acked now }
{
    let size = sent.min(acked);
    let proven = raise(s.proven, size);
    let seek = if acked < sent {
        lose_size(s.seek, known(proven), sent, now)
    } else {
        end(s.seek, known(proven), now)
    };
    Proved {
        sizes: Sizes { seek, proven },
        raised: rises(s.proven, size),
    }
}

// Whether a search probe sent at `at` is lost now: its timeout has passed, and one sent after it was answered. The
// order is asked first: the other way round the check finds no proof.
fn is_lost(at: u64, id: u32, answered: Option<u32>, now: u64, timeout: u64) -> bool
    ensures { result ≡ lost_now at id answered now timeout }
{
    answered.is_some_and(|a| after(a, id)) && deadline(at, timeout) <= now
}

// The search probe that is out is lost, with this size for the proven one: the search goes on below it.
pub fn drop_out(s: Sizes, proven: u16, now: u64, gap: u64) -> Judged
    ensures { result ≡ drop_of s proven now gap }
{
    let seek = lose_size(unseek(s.seek, gap), proven, s.seek.len, now);
    Judged {
        sizes: Sizes { seek, ..s },
        lost: true,
    }
}

// Whether the search probe that is out is lost now.
pub fn judges(seek: Seek, answered: Option<u32>, now: u64, timeout: u64) -> bool
    ensures { result ≡ judges_of seek seek.at answered now timeout }
{
    seek.len != 0
        && seek
            .at
            .is_some_and(|at| is_lost(at, seek.probe_id, answered, now, timeout))
}

// Judges the search probe that is out: it is lost, or it waits.
#[tactic(auto, unfolding(seek::specs::Search::judged_search))]
pub fn seek_judge(s: Sizes, answered: Option<u32>, now: u64, timeout: u64, gap: u64) -> Judged
    ensures { result ≡ judged_search s answered now timeout gap }
{
    let waits = Judged {
        sizes: s,
        lost: false,
    };
    let Some(at) = s.seek.at else {
        return waits;
    };
    if s.seek.len == 0 || !is_lost(at, s.seek.probe_id, answered, now, timeout) {
        return waits;
    }
    let Some(size) = s.proven else {
        return drop_out(s, PATH_PROBE_MIN_SIZE, now, gap);
    };
    drop_out(s, size, now, gap)
}

// Takes `len` bytes as proven, by a probe of the ring.
pub fn prove(s: Sizes, len: u16) -> Proving
    ensures { result ≡ proven_sizes s len }
{
    Proving {
        sizes: Sizes {
            proven: Some(len),
            ..s
        },
        changed: s.proven != Some(len),
    }
}

// The search starts afresh; the proven size stays.
pub fn fresh_sizes(s: Sizes) -> Sizes
    ensures { result ≡ fresh_sizes s }
{
    Sizes {
        seek: Seek::new(),
        ..s
    }
}
