// The places of probes in a slot's rows: the ring, the late list, the identifiers, the silence clock, the ladder, the
// misses. A store leaves all else; a place that is not there reads as free, and a store to it changes nothing. Ring and late
// list have functions apiece: an offset and a count handed in would ask more of callers, or test a place twice.
ghost use Rattle.std.specs.Prelude.{◌≡◌, set, get_or};
ghost use Rattle.ring.specs.Ring.{no_sent};
ghost use Rattle.cells.specs.Cells.{with_id};
ghost use Rattle.live.specs.Path.{with_ring, with_late, with_ids, with_ladder, with_misses};
ghost use Rattle.rows.specs.Parts.{with_quiet, moved};
ghost use Rattle.rows.specs.View.{path_in};
ghost use Rattle.rows.specs.Says.{Says};

use crate::places::*;
use base::missing::*;
use base::types::*;
use cells::words::*;
use pathwords::probes::*;
use ring::types::*;
use seek::types::Ladder;

// The probe at a place of the ring.
pub fn sent(p: &[[u64; 4]; ROWS], i: usize) -> Sent
    ensures { result ≡ get_or (path_in p.now).ring i no_sent }
{
    if RING <= i {
        return ring::ring::none();
    }
    sent_in(p[i])
}

// Stores a probe at a place of the ring.
pub fn set_sent(p: &mut [[u64; 4]; ROWS], i: usize, s: Sent)
    ensures { Says p.old p.new
        (with_ring (path_in p.old) (set (path_in p.old).ring i s)) }
{
    if RING <= i {
        return;
    }
    p[i] = sent_row(s);
}

// Stores the probe at a place of the ring at another.
pub fn move_sent(p: &mut [[u64; 4]; ROWS], from: usize, to: usize)
    ensures { Says p.old p.new
        (with_ring (path_in p.old) (moved (path_in p.old).ring from to)) }
{
    if RING <= from {
        set_sent(p, to, ring::ring::none());
        return;
    }
    if RING <= to {
        return;
    }
    p[to] = p[from];
}

// The probe at a place of the late list.
pub fn late(p: &[[u64; 4]; ROWS], i: usize) -> Sent
    ensures { result ≡ get_or (path_in p.now).late i no_sent }
{
    if LATE <= i {
        return ring::ring::none();
    }
    sent_in(p[LATES_AT + i])
}

// Stores a probe at a place of the late list.
pub fn set_late(p: &mut [[u64; 4]; ROWS], i: usize, s: Sent)
    ensures { Says p.old p.new
        (with_late (path_in p.old) (set (path_in p.old).late i s)) }
{
    if LATE <= i {
        return;
    }
    p[LATES_AT + i] = sent_row(s);
}

// Stores the probe at a place of the late list at another.
pub fn move_late(p: &mut [[u64; 4]; ROWS], from: usize, to: usize)
    ensures { Says p.old p.new
        (with_late (path_in p.old) (moved (path_in p.old).late from to)) }
{
    if LATE <= from {
        set_late(p, to, ring::ring::none());
        return;
    }
    if LATE <= to {
        return;
    }
    p[LATES_AT + to] = p[LATES_AT + from];
}

// The identifiers.
#[tactic(auto, unfolding(crate::specs::View::path_in))]
pub fn ids(p: &[[u64; 4]; ROWS]) -> Ids
    ensures { result ≡ (path_in p.now).ids }
{
    ids_in(p[IDS_AT])
}

// Stores the identifiers.
pub fn set_ids(p: &mut [[u64; 4]; ROWS], m: Ids)
    ensures { Says p.old p.new (with_ids (path_in p.old) m) }
{
    p[IDS_AT] = ids_row(m);
}

// Stores one of the identifiers, by its place in their row: next, answered, epoch, since.
pub fn set_id(p: &mut [[u64; 4]; ROWS], k: usize, m: Option<u32>)
    ensures { Says p.old p.new
        (with_ids (path_in p.old) (with_id (path_in p.old).ids k m)) }
{
    p[IDS_AT] = put(p[IDS_AT], k, id_word(m));
}

// The silence clock.
#[tactic(auto, unfolding(crate::specs::View::path_in))]
pub fn quiet(p: &[[u64; 4]; ROWS]) -> Option<u64>
    ensures { result ≡ (path_in p.now).silence.quiet }
{
    let t = p[CLOCKS_AT];
    time_in(t[0], t[1])
}

// Stores the silence clock.
pub fn set_quiet(p: &mut [[u64; 4]; ROWS], m: Option<u64>)
    ensures { Says p.old p.new (with_quiet (path_in p.old) m) }
{
    p[CLOCKS_AT] = put_half(p[CLOCKS_AT], false, tag(m), m.unwrap_or(0));
}

// The ladder.
#[tactic(auto, unfolding(crate::specs::View::path_in))]
pub fn ladder(p: &[[u64; 4]; ROWS]) -> Ladder
    ensures { result ≡ (path_in p.now).ladder }
{
    ladder_in(p[SEARCH_AT][3])
}

// Stores the ladder.
pub fn set_ladder(p: &mut [[u64; 4]; ROWS], l: Ladder)
    ensures { Says p.old p.new (with_ladder (path_in p.old) l) }
{
    p[SEARCH_AT] = put(p[SEARCH_AT], 3, ladder_word(l));
}

// The misses.
#[tactic(auto, unfolding(crate::specs::View::path_in, cells::specs::Cells::misses_in))]
pub fn misses(p: &[[u64; 4]; ROWS]) -> u32
    ensures { result ≡ (path_in p.now).misses }
{
    low(p[MARKS_AT][3])
}

// Stores the misses.
pub fn set_misses(p: &mut [[u64; 4]; ROWS], n: u32)
    ensures { Says p.old p.new (with_misses (path_in p.old) n) }
{
    p[MARKS_AT] = put(p[MARKS_AT], 3, u64::from(n));
}
