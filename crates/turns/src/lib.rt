// One event on a slot's rows: the refusals that are tried first, then the work of the event's kind.
#![tactic(auto)]

ghost use Rattle.std.specs.Prelude.{◌≡◌};
ghost use Rattle.live.specs.Search.{seek_answer_of};
ghost use Rattle.rules.specs.Event.{bit};
ghost use Rattle.rules.specs.Rules.{answered, on_slot};
ghost use Rattle.refusals.specs.Refusals.{at_kind};
ghost use Rattle.turns.specs.Work.{work_by};
ghost use Rattle.cells.specs.Cells.{settings_in};
ghost use Rattle.rows.specs.View.{path_in, slot_in};
ghost use Rattle.rows.specs.Says.{Turns};

use base::types::Refusal;
use probe_events::events::*;
use refusals::refuse::*;
use rows::places::ROWS;
use rules::types::*;
use size_events::*;
use slots::*;
use time_events::*;

pub mod slots;

// Answer: the search probe first, then the ring.
fn answer(p: &mut [[u64; 4]; ROWS], e: Event, gap: u64) -> Result<Reply, Refusal>
    ensures { Turns p.old p.new result
        (answered (seek_answer_of (path_in p.old) e.id gap) (slot_in p.old) e) }
{
    if settle(p, e, gap) {
        return Ok(Reply::Search);
    }
    answer_ring(p, e.id)
}

// The flag of bit 0: overdue in poll, delivered in fold.
fn first_flag(e: Event) -> bool
    ensures { result ≡ bit 1 e }
{
    e.flags % 2 == 1
}

// The work of a kind, but for an open; of the settings (cap, gap, window, horizon) a kind reads its own.
#[tactic(auto, unfolding(crate::specs::Work::work_by, cells::specs::Cells::settings_in, probe_events::specs::Poll::whole_poll))]
fn work(t: &[u64; 4], p: &mut [[u64; 4]; ROWS], e: Event, kind: Kind) -> Result<Reply, Refusal>
    ensures { Turns p.old p.new result
        (work_by (settings_in t.now) (slot_in p.old) (at_kind kind e)) }
{
    match kind {
        Kind::Probe => probe(p, e),
        Kind::Answer => answer(p, e, t[1]),
        Kind::Poll => poll(p, e.now, first_flag(e), t[0]),
        Kind::Sample => sample(p, e, t[2], t[3]),
        Kind::Fold => fold(p, first_flag(e)),
        Kind::Prove => prove(p, e),
        Kind::Search => search(p, e),
        Kind::Judge => judge(p, e, t[1]),
        Kind::Data => received(p, e),
        Kind::Fresh => fresh(p),
        Kind::Thaw => thaw(p),
        Kind::Sweep => sweep(p),
        Kind::Close => close(p),
        Kind::Open | Kind::Choose => Err(Refusal::Kind),
    }
}

// The first refusal, with every word as it came; else the work.
pub fn on_rows(t: &[u64; 4], p: &mut [[u64; 4]; ROWS], e: Event) -> Result<Reply, Refusal>
    ensures { Turns p.old p.new result
        (on_slot (settings_in t.now) (slot_in p.old) e) }
{
    let held = rows::whole::used(p);
    first_refusal(labels::marks::settings_in(*t), held, e)?;
    match Kind::try_from(e.kind)? {
        Kind::Open => open(p, e),
        kind => work(t, p, e, kind),
    }
}
