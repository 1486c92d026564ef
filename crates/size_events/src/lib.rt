// What the events on sizes do to a slot's rows: prove, search, judge, fresh; and the search probe's part of an answer.
#![tactic(auto)]

ghost use Rattle.live.specs.Search.{prove_of, fresh_of, seek_size_of, seek_answer_of, seek_judge_of};
ghost use Rattle.rules.specs.Rules.{turn, turn_by, searched};
ghost use Rattle.rules.specs.declared.types.Reply.TheVariants.{Nothing};
ghost use Rattle.rows.specs.View.{path_in, slot_in};
ghost use Rattle.rows.specs.Says.{Turns};
ghost use Rattle.size_events.specs.Settles.{Settles};

use base::limits::*;
use base::types::*;
use rowmeasures::*;
use rows::places::*;
use rows::probes::*;
use rules::types::*;
use seek::types::Ladder;

// Prove: a length out of range changes nothing.
pub fn prove(p: &mut [[u64; 4]; ROWS], e: Event) -> Result<Reply, Refusal>
    ensures { Turns p.old p.new result
        (turn (slot_in p.old) (prove_of (path_in p.old) e.len).path (Ok Nothing)) }
{
    let len = e.len;
    if MAX_LEN < len {
        return Ok(Reply::Nothing);
    }
    if len < MIN_LEN {
        return Ok(Reply::Nothing);
    }
    let proving = seeking::prove(sizes(p), len as u16);
    set_proven(p, proving.sizes.proven);
    Ok(Reply::Nothing)
}

// Search: the size that is proposed is sent, under the path's next identifier.
pub fn search(p: &mut [[u64; 4]; ROWS], e: Event) -> Result<Reply, Refusal>
    ensures { Turns p.old p.new result (searched
        (seek_size_of (path_in p.old) (slot_in p.old).label.full e.now)
        (slot_in p.old) e) }
{
    let full = rows::whole::label(p).full;
    if full < PATH_PROBE_MIN_SIZE {
        return Err(Refusal::Length);
    }
    let old = sizes(p);
    let Some(len) = seeking::seek_size(old, full, e.now) else {
        return Err(Refusal::NoSize);
    };
    let before = ids(p);
    let id = ids::taken(before.next_id, e.id);
    let after = ids::next_ids(before, id);
    let sent = seeking::seek_send(old, e.now, len, id);
    set_id(p, 0, after.next_id);
    set_seek(p, sent.seek);
    Ok(Reply::Id(id))
}

// Judge.
pub fn judge(p: &mut [[u64; 4]; ROWS], e: Event, gap: u64) -> Result<Reply, Refusal>
    ensures { Turns p.old p.new result
        (turn_by (slot_in p.old) (seek_judge_of (path_in p.old) e.now e.span gap)) }
{
    if DURATION_END <= e.span {
        return Err(Refusal::Duration);
    }
    if DURATION_END <= gap {
        return Err(Refusal::Duration);
    }
    let old = sizes(p);
    let answered = ids(p).answered;
    if seeking::judges(old.seek, answered, e.now, e.span) {
        let judged = seeking::drop_out(old, seek::sizing::known(old.proven), e.now, gap);
        set_seek(p, judged.sizes.seek);
        return Ok(Reply::Lost);
    }
    Ok(Reply::Waits)
}

// Fresh.
pub fn fresh(p: &mut [[u64; 4]; ROWS]) -> Result<Reply, Refusal>
    ensures { Turns p.old p.new result
        (turn (slot_in p.old) (fresh_of (path_in p.old)) (Ok Nothing)) }
{
    let again = seeking::fresh_sizes(sizes(p));
    let after = ids::fresh_ids(ids(p));
    let ladder = Ladder {
        last: None,
        fallen: false,
    };
    set_id(p, 2, after.epoch);
    set_misses(p, 0);
    set_seek(p, again.seek);
    set_ladder(p, ladder);
    Ok(Reply::Nothing)
}

// The search probe's part of an answer: whether the identifier names it; then it is settled, and what was acknowledged
// is proven or lost.
pub fn settle(p: &mut [[u64; 4]; ROWS], e: Event, gap: u64) -> bool
    ensures { Settles p.old p.new result
        (seek_answer_of (path_in p.old) e.id gap) e.acked e.now }
{
    if DURATION_END <= gap {
        return false;
    }
    let settled = seeking::seek_answer(sizes(p), e.id, gap);
    let Some(len) = settled.len else {
        return false;
    };
    let acked = e.acked;
    if MAX_LEN < acked {
        set_sizes(p, settled.sizes);
        return true;
    }
    let proved = seeking::seek_proved(settled.sizes, len, acked as u16, e.now);
    set_sizes(p, proved.sizes);
    true
}
