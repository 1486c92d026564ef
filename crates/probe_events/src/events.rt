// Probe, answer, poll, thaw and sweep on a slot in rows. A refusal is known
// before anything is stored.
ghost use Rattle.std.specs.Prelude.{◌≡◌};
ghost use Rattle.ring.specs.Ring.{outstanding_of};
ghost use Rattle.live.specs.Probe.{send_of, answer_of, clear_of, thaw_of};
ghost use Rattle.rules.specs.Rules.{turn, turn_by, polled};
ghost use Rattle.rules.specs.declared.types.Reply.TheVariants.{Count, Nothing};
ghost use Rattle.probe_events.specs.Poll.{whole_poll};
ghost use Rattle.rows.specs.View.{path_in, slot_in};
ghost use Rattle.rows.specs.Says.{Turns};

use crate::lapse::expire;
use base::limits::MAX_LEN;
use base::types::*;
use ring::types::*;
use rows::places::*;
use rows::probes::*;
use rules::types::*;
use seek::types::Ladder;
use waiting::search::*;
use waiting::store::*;

// Probe.
pub fn probe(p: &mut [[u64; 4]; ROWS], e: Event) -> Result<Reply, Refusal>
    ensures { Turns p.old p.new result
        (turn_by (slot_in p.old) (send_of (path_in p.old) e.now e.span e.len e.id)) }
{
    if MAX_LEN < e.len {
        return Err(Refusal::Length);
    }
    let place = first_free(p);
    let Some(slot) = place else {
        return Err(Refusal::Full);
    };
    let short = e.len as u16;
    drop_since(p);
    let kept = ids(p);
    let id = ids::taken(kept.next_id, e.id);
    let after = ids::next_ids(kept, id);
    let first = Some(stop::silence::from(quiet(p), e.now));
    let rung = Ladder {
        last: Some(short),
        ..ladder(p)
    };
    let s = Sent {
        at: e.now,
        due: e.span,
        probe_id: id,
        len: short,
        used: true,
    };
    set_sent(p, slot, s);
    set_id(p, 0, after.next_id);
    set_quiet(p, first);
    set_ladder(p, rung);
    Ok(Reply::Id(id))
}

// Answer, where it is not the search probe's: the ring, then the late list.
pub fn answer_ring(p: &mut [[u64; 4]; ROWS], id: u32) -> Result<Reply, Refusal>
    ensures { Turns p.old p.new result
        (turn_by (slot_in p.old) (answer_of (path_in p.old) id)) }
{
    let place = find(p, id);
    if let Some(slot) = place {
        let after = ids::answered_ids(ids(p), id);
        take_out(p, slot);
        set_id(p, 1, after.answered);
        set_misses(p, 0);
        return Ok(Reply::InTime);
    }
    if let Some(slot) = find_late(p, id) {
        set_late(p, slot, ring::ring::none());
        return Ok(Reply::Late);
    }
    Err(Refusal::Unknown)
}

// Poll: `expire` until none lapses; a ring of eight is empty after eight, and the ninth finds none.
pub fn poll(p: &mut [[u64; 4]; ROWS], at: u64, overdue: bool, cap: u64) -> Result<Reply, Refusal>
    ensures { Turns p.old p.new result
        (polled (slot_in p.old) (whole_poll (path_in p.old) at overdue cap)) }
{
    for n in 0..9 {
        if !expire(p, at, overdue, cap) {
            return Ok(Reply::Count(n));
        }
    }
    Ok(Reply::Count(9))
}

// Thaw.
pub fn thaw(p: &mut [[u64; 4]; ROWS]) -> Result<Reply, Refusal>
    ensures { Turns p.old p.new result
        (turn (slot_in p.old) (thaw_of (path_in p.old)) (Ok Nothing)) }
{
    let after = ids::thawed_ids(ids(p));
    set_id(p, 3, after.since);
    Ok(Reply::Nothing)
}

// Sweep: every waiting probe is given up, in ring order, and counted. The ring is read in place: as an array it takes twice
// the time.
pub fn sweep(p: &mut [[u64; 4]; ROWS]) -> Result<Reply, Refusal>
    ensures { Turns p.old p.new result
        (turn (slot_in p.old) (clear_of (path_in p.old))
        (Ok (Count (outstanding_of (path_in p.old).ring)))) }
{
    let mut late = late_of(p);
    let mut n: u32 = 0;
    for i in 0..RING {
        let s = sent(p, i);
        if s.used {
            // A variable of its own: the check covers no result laid straight in an array.
            let next = ring::ring::remember(late, s);
            late = next;
            n += 1;
        }
    }
    set_lates(p, late);
    free_from(p, 0);
    Ok(Reply::Count(n))
}
