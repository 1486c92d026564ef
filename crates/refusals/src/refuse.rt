// The refusals that are tried before the work.
ghost use Rattle.std.specs.Prelude.{◌≡◌, true, not, ◌&&◌, ◌||◌, [], ◌∷◌, eqb, leb, ltb, drop};
ghost use Rattle.base.specs.Limits.{is_overlong, is_undersize, is_endless};
ghost use Rattle.base.specs.declared.types.Refusal.TheVariants.{Empty, Held, Flag, Length, Duration, Due};
ghost use Rattle.rules.specs.Event.{kind_number};
ghost use Rattle.rules.specs.Rules.{refusals};
ghost use Rattle.refusals.specs.Refusals.{verdict_of, at_kind};

use base::limits::{DURATION_END, MAX_LEN, MIN_LEN};
use base::types::Refusal;
use rules::types::{Event, Kind, Settings};

// The refusal, where it applies.
fn refuse(why: Refusal, applies: bool) -> Result<(), Refusal>
    ensures { result ≡ verdict_of ((why, applies) ∷ []) }
{
    if applies { Err(why) } else { Ok(()) }
}

// 5 for a full or proved size above 65,535 or below 27.
fn size_refusal(len: u32) -> Result<(), Refusal>
    ensures { result ≡ verdict_of ((Length, is_overlong len || is_undersize len) ∷ []) }
{
    refuse(Refusal::Length, (MAX_LEN < len) | (len < MIN_LEN))
}

// 4, then 5, of an open.
fn open_refusal(flags: u8, len: u32) -> Result<(), Refusal>
    ensures { result ≡ verdict_of ((Flag, leb 128 flags) ∷ (Length, is_overlong len || is_undersize len) ∷ []) }
{
    refuse(Refusal::Flag, 128 <= flags)?;
    size_refusal(len)
}

// 5, then 23, of a probe: its length, its now and its due.
fn probe_refusal(len: u32, at: u64, due: u64) -> Result<(), Refusal>
    ensures { result ≡ verdict_of ((Length, is_overlong len) ∷ (Due, ltb due at) ∷ []) }
{
    refuse(Refusal::Length, MAX_LEN < len)?;
    refuse(Refusal::Due, due < at)
}

// 5, then 6, of an answer: the acknowledged length and the gap.
fn answer_refusal(acked: u32, gap: u64) -> Result<(), Refusal>
    ensures { result ≡ verdict_of ((Length, is_overlong acked) ∷ (Duration, is_endless gap) ∷ []) }
{
    refuse(Refusal::Length, MAX_LEN < acked)?;
    refuse(Refusal::Duration, DURATION_END <= gap)
}

// 4, then 6, of a poll: the flags and the cap.
fn poll_refusal(flags: u8, cap: u64) -> Result<(), Refusal>
    ensures { result ≡ verdict_of ((Flag, leb 2 flags) ∷ (Duration, is_endless cap) ∷ []) }
{
    refuse(Refusal::Flag, 2 <= flags)?;
    refuse(Refusal::Duration, DURATION_END <= cap)
}

// 6 of a judge: its timeout and the gap, as one test.
fn judge_refusal(span: u64, gap: u64) -> Result<(), Refusal>
    ensures { result ≡ verdict_of ((Duration, is_endless span || is_endless gap) ∷ []) }
{
    refuse(
        Refusal::Duration,
        (DURATION_END <= span) | (DURATION_END <= gap),
    )
}

// 6 of a sample: its RTT, the window and the horizon, as one test.
fn sample_refusal(span: u64, window: u64, horizon: u64) -> Result<(), Refusal>
    ensures { result ≡ verdict_of ((Duration, is_endless span || (is_endless window || is_endless horizon)) ∷ []) }
{
    refuse(
        Refusal::Duration,
        (DURATION_END <= span) | ((DURATION_END <= window) | (DURATION_END <= horizon)),
    )
}

// The first of 4, 5, 6 and 23: of the fields that an event of this kind has and the settings that it reads, so that each
// kind tries its own alone.
fn field_refusal(t: Settings, e: Event, kind: Kind) -> Result<(), Refusal>
    ensures { result ≡ verdict_of (drop 4 (refusals t true (at_kind kind e))) }
{
    match kind {
        Kind::Open => open_refusal(e.flags, e.len),
        Kind::Probe => probe_refusal(e.len, e.now, e.span),
        Kind::Answer => answer_refusal(e.acked, t.gap),
        Kind::Poll => poll_refusal(e.flags, t.cap),
        Kind::Sample => sample_refusal(e.span, t.window, t.horizon),
        Kind::Fold => refuse(Refusal::Flag, 2 <= e.flags),
        Kind::Prove => size_refusal(e.len),
        Kind::Judge => judge_refusal(e.span, t.gap),
        Kind::Data => refuse(Refusal::Length, MAX_LEN < e.len),
        _ => Ok(()),
    }
}

// 3 for an open on a held slot, 2 for any other kind on an empty one.
fn slot_refusal(used: bool, kind: Kind) -> Result<(), Refusal>
    ensures { result ≡ verdict_of ((Empty, not (eqb (kind_number kind) 1) && not used) ∷ (Held, eqb (kind_number kind) 1 && used) ∷ []) }
{
    match kind {
        Kind::Open => refuse(Refusal::Held, used),
        _ => refuse(Refusal::Empty, !used),
    }
}

// The first refusal whose condition holds, of an event on a slot that is held or empty: 15 before 1, then by number;
// 8, 9 and 10, which the work finds, come behind all of these.
pub fn first_refusal(t: Settings, used: bool, e: Event) -> Result<(), Refusal>
    ensures { result ≡ verdict_of (refusals t used e) }
{
    let kind = Kind::try_from(e.kind)?;
    refuse(Refusal::Slot, 7 < e.slot)?;
    slot_refusal(used, kind)?;
    field_refusal(t, e, kind)
}
