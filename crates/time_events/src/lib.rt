// What the events on round trips, ETX and data do to a slot's rows: sample, fold, data.
#![tactic(auto)]

ghost use Rattle.live.specs.Times.{sample_of, folded_of, heard_of, carried_of};
ghost use Rattle.rules.specs.Rules.{turn};
ghost use Rattle.rules.specs.declared.types.Reply.TheVariants.{Nothing};
ghost use Rattle.rows.specs.View.{path_in, slot_in};
ghost use Rattle.rows.specs.Says.{Turns};

use base::limits::*;
use base::types::*;
use live::types::Traffic;
use rowmeasures::*;
use rows::places::*;
use rules::types::*;

pub mod horizon;
pub mod places;
pub mod window;

// Data: heard, then carried; a frame that is too long is carried and not counted.
pub fn received(p: &mut [[u64; 4]; ROWS], e: Event) -> Result<Reply, Refusal>
    ensures { Turns p.old p.new result (turn (slot_in p.old)
        (carried_of (heard_of (path_in p.old) e.len e.now).path e.now) (Ok Nothing)) }
{
    let old = traffic(p);
    if MAX_LEN < e.len {
        set_traffic(
            p,
            Traffic {
                data_at: Some(e.now),
                ..old
            },
        );
        return Ok(Reply::Nothing);
    }
    set_traffic(
        p,
        Traffic {
            heard_at: Some(e.now),
            data_at: Some(e.now),
            frames: old.frames.wrapping_add(1),
            bytes: old.bytes.wrapping_add(e.len),
        },
    );
    Ok(Reply::Nothing)
}

// Fold: what it gives is no NaN, so its pattern is stored as it is.
pub fn fold(p: &mut [[u64; 4]; ROWS], delivered: bool) -> Result<Reply, Refusal>
    ensures { Turns p.old p.new result
        (turn (slot_in p.old) (folded_of (path_in p.old) delivered) (Ok Nothing)) }
{
    let old = etx(p);
    let folded = etx::fold(old, delivered);
    set_etx_word(p, folded.to_bits());
    Ok(Reply::Nothing)
}

// Sample: an endless duration changes nothing.
pub fn sample(
    p: &mut [[u64; 4]; ROWS],
    e: Event,
    window: u64,
    horizon: u64,
) -> Result<Reply, Refusal>
    ensures { Turns p.old p.new result (turn (slot_in p.old)
        (sample_of (path_in p.old) e.now e.span window horizon).path (Ok Nothing)) }
{
    let trip = e.span;
    if DURATION_END <= trip {
        return Ok(Reply::Nothing);
    }
    if DURATION_END <= window {
        return Ok(Reply::Nothing);
    }
    if DURATION_END <= horizon {
        return Ok(Reply::Nothing);
    }
    crate::window::enter(p, e.now, trip, window);
    crate::horizon::enter(p, e.now, trip, horizon);
    set_trip(p, Some(trip));
    Ok(Reply::Nothing)
}
