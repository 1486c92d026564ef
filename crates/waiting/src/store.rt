// The ring and the late list of a slot's rows, stored in place: the ring closed up, one more in the late list. A store
// leaves all else.
ghost use Rattle.std.specs.Prelude.{◌≡◌, length};
ghost use Rattle.ring.specs.Ring.{max_waiting, taken_out, remembered, drop_since};
ghost use Rattle.live.specs.Path.{with_ring, with_late, with_ids};
ghost use Rattle.rows.specs.View.{path_in};
ghost use Rattle.rows.specs.Says.{Says};
ghost use Rattle.waiting.specs.Steps.{others, pressed, freed_from};

use crate::search::is_dropped;
use ring::types::*;
use rows::places::*;
use rows::probes::*;

// Moves the waiting probes but the one at a place to the front of the ring, in their order, and counts them.
fn press(p: &mut [[u64; 4]; ROWS], slot: usize) -> usize
    ensures { (result ≡ length (others slot (path_in p.old).ring))
        × Says p.old p.new
        (with_ring (path_in p.old) (pressed slot (path_in p.old).ring)) }
{
    let mut w: usize = 0;
    for r in 0..RING {
        if sent(p, r).used & (r != slot) {
            move_sent(p, r, w);
            w += 1;
        }
    }
    w
}

// Frees the ring's places from one on. Each is asked for by itself: one run of stores would become a call of `memset`.
pub fn free_from(p: &mut [[u64; 4]; ROWS], from: usize)
    ensures { Says p.old p.new
        (with_ring (path_in p.old) (freed_from from (path_in p.old).ring)) }
{
    let free = ring::ring::none();
    for k in 0..RING {
        if from <= k {
            set_sent(p, k, free);
        }
    }
}

// Takes the probe at a place out of the ring, which closes up in its order.
pub fn take_out(p: &mut [[u64; 4]; ROWS], slot: usize)
    ensures { Says p.old p.new
        (with_ring (path_in p.old) (taken_out max_waiting (path_in p.old).ring slot)) }
{
    let w = press(p, slot);
    free_from(p, w);
}

// One more at the end of the late list: everything shifts one place.
pub fn remember(p: &mut [[u64; 4]; ROWS], s: Sent)
    ensures { Says p.old p.new
        (with_late (path_in p.old) (remembered (path_in p.old).late s)) }
{
    move_late(p, 1, 0);
    move_late(p, 2, 1);
    move_late(p, 3, 2);
    set_late(p, 3, s);
}

// Drops since, before a send, if every waiting probe counts.
pub fn drop_since(p: &mut [[u64; 4]; ROWS])
    ensures { Says p.old p.new (with_ids (path_in p.old)
        (drop_since (path_in p.old).ids (path_in p.old).ring)) }
{
    let m = ids(p);
    if is_dropped(p, m.since) {
        set_id(p, 3, None);
    }
}

// The ring.
pub fn ring_of(p: &[[u64; 4]; ROWS]) -> [Sent; RING]
    ensures { result ≡ (path_in p.now).ring }
{
    [
        sent(p, 0),
        sent(p, 1),
        sent(p, 2),
        sent(p, 3),
        sent(p, 4),
        sent(p, 5),
        sent(p, 6),
        sent(p, 7),
    ]
}

// The late list.
pub fn late_of(p: &[[u64; 4]; ROWS]) -> [Sent; LATE]
    ensures { result ≡ (path_in p.now).late }
{
    [late(p, 0), late(p, 1), late(p, 2), late(p, 3)]
}

// Stores the late list.
pub fn set_lates(p: &mut [[u64; 4]; ROWS], l: [Sent; LATE])
    ensures { Says p.old p.new (with_late (path_in p.old) l) }
{
    set_late(p, 0, l[0]);
    set_late(p, 1, l[1]);
    set_late(p, 2, l[2]);
    set_late(p, 3, l[3]);
}
