// The probe of a slot's rows that lapses: the first whose due has passed and that no data defers; deferred in place.
ghost use Rattle.std.specs.Prelude.{◌≡◌, false};
ghost use Rattle.std.specs.List.{position_from};
ghost use Rattle.ring.specs.Lapse.{is_passed};
ghost use Rattle.live.specs.Answers.{has_lapsed};
ghost use Rattle.live.specs.Path.{with_ring};
ghost use Rattle.live.specs.Probe.{expire_of};
ghost use Rattle.rows.specs.View.{path_in};
ghost use Rattle.rows.specs.Says.{Says};
ghost use Rattle.probe_events.specs.Scan.{scan_in, lapsed_in};

use base::limits::DURATION_END;
use base::types::*;
use lapses::{defer, is_passed};
use ring::types::*;
use rowmeasures::data_at;
use rows::places::*;
use rows::probes::*;
use seek::types::Ladder;
use waiting::store::*;

// The place of the first probe whose due is not after an instant.
fn first_due(p: &[[u64; 4]; ROWS], last: u64) -> Option<usize>
    ensures { result ≡ position_from (is_passed last false) 0 (path_in p.now).ring }
{
    for i in 0..RING {
        if is_passed(sent(p, i), last, false) {
            return Some(i);
        }
    }
    None
}

// The place of the first probe whose due has passed: what is before an instant is not after the one before it.
fn first_passed(p: &[[u64; 4]; ROWS], at: u64, overdue: bool) -> Option<usize>
    ensures { result ≡ position_from (is_passed at overdue) 0 (path_in p.now).ring }
{
    if overdue {
        if at == 0 {
            return None;
        }
        return first_due(p, at - 1);
    }
    first_due(p, at)
}

// Defers probes, and gives the place of the one that lapses, or 8.
fn scan(p: &mut [[u64; 4]; ROWS], heard: Option<u64>, cap: u64, at: u64, overdue: bool) -> usize
    ensures { (result ≡ (scan_in p.old heard cap at overdue).slot)
        × Says p.old p.new
        (with_ring (path_in p.old) (scan_in p.old heard cap at overdue).ring) }
{
    let slot = loop {
        let Some(i) = first_passed(p, at, overdue) else {
            break RING;
        };
        let s = sent(p, i);
        let Some(due) = defer(s, heard, cap, at, overdue) else {
            break i;
        };
        set_sent(p, i, Sent { due, ..s });
    };
    slot
}

// The probe at a place of the ring lapses.
fn lapse(p: &mut [[u64; 4]; ROWS], slot: usize)
    ensures { Says p.old p.new (lapsed_in p.old slot) }
{
    let s = sent(p, slot);
    let m = ids(p);
    let miss = ids::counted(m, s.probe_id);
    let fall = ids::padded(m, s);
    let l = ladder(p);
    let rung = Ladder {
        fallen: fall | l.fallen,
        ..l
    };
    let after = ids::missed(misses(p), miss);
    take_out(p, slot);
    remember(p, s);
    set_ladder(p, rung);
    set_misses(p, after);
}

// Takes the probe that lapses out of the ring into the late list, deferring others on the way to it; says whether there
// was one.
pub fn expire(p: &mut [[u64; 4]; ROWS], at: u64, overdue: bool, cap: u64) -> bool
    ensures { (result ≡ has_lapsed (expire_of (path_in p.old) at overdue cap).answer)
        × Says p.old p.new (expire_of (path_in p.old) at overdue cap).path }
{
    if DURATION_END <= cap {
        return false;
    }
    let heard = data_at(p);
    let slot = scan(p, heard, cap, at, overdue);
    if RING <= slot {
        return false;
    }
    lapse(p, slot);
    true
}
