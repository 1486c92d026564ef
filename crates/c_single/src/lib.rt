// Single functions that can be refused, as C calls them: deadline, seconds, score, the next size, the timeout.
#![tactic(auto)]

ghost use Rattle.std.specs.Prelude.{◌≡◌};
ghost use Rattle.c_reply.specs.Replies.{maybe_of};
ghost use Rattle.c_single.specs.Single.{deadline_reply, seconds_reply, score_reply, is_outside, size_reply, timeout_reply};
ghost use Rattle.c_single.specs.Single.{ladder_of};

use base::limits::{DURATION_END, MAX_LEN, MIN_LEN};
use base::types::*;
use c_reply::*;
use seek::types::Ladder;

// The instant d after t; 6 for a duration of 2^62 or more.
#[tactic(auto, unfolding(crate::specs::Single::deadline_reply))]
pub fn deadline(t: u64, d: u64) -> Reply
    ensures { result ≡ deadline_reply t d }
{
    if DURATION_END <= d {
        return refuse(Refusal::Duration);
    }
    give(base::time::deadline(t, d))
}

// A duration in seconds; 6 for one of 2^62 or more.
#[tactic(auto, unfolding(crate::specs::Single::seconds_reply))]
pub fn seconds(ns: u64) -> FloatReply
    ensures { result ≡ seconds_reply ns }
{
    if DURATION_END <= ns {
        return refuse_float(Refusal::Duration);
    }
    give_float(etx::seconds(ns))
}

// The score of a path by its ETX and its least round trip; 6 for a round trip of 2^62 or more.
#[tactic(auto, unfolding(crate::specs::Single::score_reply))]
pub fn score(etx: f64, rtt: u64) -> FloatReply
    ensures { result ≡ score_reply etx rtt }
{
    if DURATION_END <= rtt {
        return refuse_float(Refusal::Duration);
    }
    give_float(scores::quality(etx, rtt))
}

// The ladder of a path that fell or not, with a last size or none.
fn ladder(fallen: bool, held: bool, last: u16) -> Ladder
    ensures { result ≡ ladder_of fallen held last }
{
    Ladder {
        last: held.then_some(last),
        fallen,
    }
}

// Whether a full or a last size is outside the limits.
fn outside(full: u32, last: u32) -> bool
    ensures { result ≡ is_outside full last }
{
    (MAX_LEN < full) | ((full < MIN_LEN) | (MAX_LEN < last))
}

// The size of the next probe of a path whose last size is `last`, if held; 5 for sizes outside the limits.
#[tactic(auto, unfolding(crate::specs::Single::size_reply))]
pub fn size(full: u32, fallen: bool, held: bool, last: u32) -> Reply
    ensures { result ≡ size_reply full fallen held last }
{
    if outside(full, last) {
        return refuse(Refusal::Length);
    }
    let l = ladder(fallen, held, last as u16);
    give(u64::from(ladder::size(l, full as u16)))
}

// The probe timeout by the last and the largest round trip; 6 for a floor or cap of 2^62 or more.
#[tactic(auto, unfolding(crate::specs::Single::timeout_reply))]
pub fn timeout(floor: u64, cap: u64, timed: bool, last: u64, sampled: bool, largest: u64) -> Reply
    ensures { result ≡ timeout_reply floor cap (maybe_of timed last) (maybe_of sampled largest) }
{
    if (DURATION_END <= floor) | (DURATION_END <= cap) {
        return refuse(Refusal::Duration);
    }
    give(rtt::times::timeout(
        timed.then_some(last),
        sampled.then_some(largest),
        floor,
        cap,
    ))
}
