// A record in lent words: made new, and changed by one of the fifteen events.
ghost use Rattle.std.specs.Prelude.{◌≡◌, cond, false, replicate};
ghost use Rattle.rules.specs.Rules.{empty_slot, refusals};
ghost use Rattle.rules.specs.Step.{allowed, fresh_record, record_of};
ghost use Rattle.refusals.specs.Refusals.{verdict_of};
ghost use Rattle.cells.specs.Cells.{event_in, settings_in};
ghost use Rattle.cells.specs.Code.{settings_row};
ghost use Rattle.rows.specs.Encode.{slot_rows};
ghost use Rattle.peer.specs.Record.{record_rows, beyond_of, Steps, Tells};

use base::limits::DURATION_END;
use base::types::Refusal;
use queries::choice::chosen;
use refusals::refuse::*;
use rows::places::ROWS;
use rules::types::*;
use select::types::PATH_MAX_PER_PEER;

// Stores eight empty slots.
fn empty(rec: &mut [[[u64; 4]; ROWS]; PATH_MAX_PER_PEER])
    ensures { rec.new ≡ replicate 8 (slot_rows empty_slot) }
{
    for i in 0..PATH_MAX_PER_PEER {
        rows::whole::set_empty(&mut rec[i]);
    }
}

// Stores the four words of settings.
fn set_settings(t: &mut [u64; 4], s: Settings)
    ensures { t.new ≡ settings_row s }
{
    *t = labels::marks::settings_row(s);
}

// Whether each setting is below 2^62.
pub fn is_allowed(t: Settings) -> bool
    ensures { result ≡ allowed t }
{
    [t.cap, t.gap, t.window, t.horizon]
        .iter()
        .all(|d| *d < DURATION_END)
}

// Makes a record of eight empty slots in the lent words; with a setting of 2^62 or more the answer is 6, and nothing is
// written.
pub fn new(
    t: &mut [u64; 4],
    rec: &mut [[[u64; 4]; ROWS]; PATH_MAX_PER_PEER],
    s: Settings,
) -> Result<Reply, Refusal>
    ensures { (result ≡ (record_of s).reply)
        × (t.new ≡ cond (allowed s) (settings_row s) t.old)
        × (rec.new ≡ cond (allowed s) (record_rows (fresh_record s)) rec.old) }
{
    if is_allowed(s) {
        set_settings(t, s);
        empty(rec);
        return Ok(Reply::Nothing);
    }
    Err(Refusal::Duration)
}

// The refusal of an event whose slot is none.
fn beyond(t: &[u64; 4], e: Event) -> Result<Reply, Refusal>
    ensures { result ≡ beyond_of (verdict_of (refusals (settings_in t.now) false e)) }
{
    first_refusal(labels::marks::settings_in(*t), false, e)?;
    Err(Refusal::Slot)
}

// One event: choose, or the work on its slot.
pub fn event(
    t: &[u64; 4],
    rec: &mut [[[u64; 4]; ROWS]; PATH_MAX_PER_PEER],
    e: Event,
) -> Result<Reply, Refusal>
    ensures { Steps t.now rec.old rec.new result e }
{
    if e.kind == 15 {
        return chosen(rec, e.span);
    }
    if 7 < e.slot {
        return beyond(t, e);
    }
    let i = e.slot as usize;
    turns::on_rows(t, &mut rec[i], e)
}

// One event by its words; the answer is one word: the refusal number times 2^32, and the value. A struct would be handed
// over field by field.
pub fn tell(t: &[u64; 4], rec: &mut [[[u64; 4]; ROWS]; PATH_MAX_PER_PEER], w: &[u64; 4]) -> u64
    ensures { Tells t.now rec.old rec.new result
        (event_in w.now) }
{
    refusals::reply::word_of(event(t, rec, labels::events::event_in(*w)))
}
