// What holds a change of the active path, and the hold on the link's cost after one.
#![tactic(auto)]

ghost use Rattle.std.specs.Prelude.{◌≡◌};
ghost use Rattle.select.specs.Rivals.{is_long};
ghost use Rattle.hold.specs.Hold.{kept_of, faster_of, beats_of, stays_of, above_of, either_long, held_of, waits_of};
ghost use Rattle.hold.specs.Hold.{new_hold, report_of, holds_of, cost_of};

use base::limits::DURATION_END;
use base::types::Refusal;
use select::types::*;

// The hold on a link's cost after a change of active path: the cost from before, the instant of the change, and the
// reports owed.
#[derive(Clone, Copy)]
pub struct Hold {
    pub cost: f64,
    pub at: u64,
    pub owed: u8,
}

// Whether `from` runs over a faster known medium and scores over the horizon within the margin of `to`.
fn kept(to: Rival, from: Rival, margin: f64) -> bool
    ensures { result ≡ kept_of to from margin }
{
    select::media::quicker(from.medium, to.medium)
        & ((from.steadied & to.steadied) & (from.steady <= to.steady * margin))
}

// Whether `to` is the faster of the two at its best over the horizon, and `from` not kept for its medium.
fn faster(to: Rival, from: Rival, margin: f64) -> bool
    ensures { result ≡ faster_of to from margin }
{
    !kept(to, from, margin) & ((to.based & from.based) & (to.base < from.base))
}

// Whether the score of `to` beats that of `from` over the horizon by the margin.
fn beats(to: Rival, from: Rival, margin: f64) -> bool
    ensures { result ≡ beats_of to from margin }
{
    to.scored & (from.steady > to.score * margin)
}

// Whether `to` neither is faster than `from`, which has a score over the horizon, nor beats it.
fn stays(to: Rival, from: Rival, margin: f64) -> bool
    ensures { result ≡ stays_of to from margin }
{
    from.steadied & (!faster(to, from, margin) & !beats(to, from, margin))
}

// Whether the score of `to` is outside the margin of that of `from` over the horizon.
fn above(to: Rival, from: Rival, margin: f64) -> bool
    ensures { result ≡ above_of to from margin }
{
    (from.steadied & to.scored) & (to.score > from.steady * margin)
}

// Whether a rival has a round trip of 2^62 or more.
fn long(r: Rival) -> bool
    ensures { result ≡ is_long r }
{
    (r.timed & (DURATION_END <= r.rtt)) | (r.based & (DURATION_END <= r.base))
}

// Whether either has a round trip of 2^62 or more.
fn either_long(to: Rival, from: Rival) -> bool
    ensures { result ≡ either_long to from }
{
    long(to) | long(from)
}

// Whether a change on score from the active path `from` to `to` is held.
#[tactic(auto, unfolding(crate::specs::Hold::held_of))]
pub fn held(to: Rival, from: Rival, margin: f64) -> Result<bool, Refusal>
    ensures { result ≡ held_of to from margin }
{
    if either_long(to, from) {
        return Err(Refusal::Duration);
    }
    Ok(stays(to, from, margin))
}

// Whether a change for its faster medium from the active path `from` to `to` is held.
#[tactic(auto, unfolding(crate::specs::Hold::waits_of))]
pub fn waits(to: Rival, from: Rival, margin: f64) -> Result<bool, Refusal>
    ensures { result ≡ waits_of to from margin }
{
    if either_long(to, from) {
        return Err(Refusal::Duration);
    }
    Ok(above(to, from, margin))
}

// Whether a hold holds: before the dwell has passed, or while a report is owed.
fn holds(h: Hold, now: u64, dwell: u64) -> bool
    ensures { result ≡ holds_of h now dwell }
{
    (now < base::time::deadline(h.at, dwell)) | (0 < h.owed)
}

impl Hold {
    // The receiver reports that a hold waits for.
    pub const REPORTS: u8 = 2;

    // A hold of `cost` from a change at `at`, owing every report.
    pub fn new(cost: f64, at: u64) -> Self
        ensures { result ≡ new_hold cost at }
    {
        Hold {
            cost,
            at,
            owed: Hold::REPORTS,
        }
    }

    // Counts one receiver report.
    pub fn report(self) -> Self
        ensures { result ≡ report_of self }
    {
        Hold {
            owed: self.owed.saturating_sub(1),
            ..self
        }
    }

    // The cost held at `now`, under a switch dwell of `dwell`.
    #[tactic(auto, unfolding(crate::specs::Hold::cost_of))]
    pub fn held(self, now: u64, dwell: u64) -> Result<Option<f64>, Refusal>
        ensures { result ≡ cost_of self now dwell }
    {
        if DURATION_END <= dwell {
            return Err(Refusal::Duration);
        }
        Ok(holds(self, now, dwell).then_some(self.cost))
    }
}
