// Searches in the ring and the late list of a slot's rows. Each has its loop: one that takes the test would have to require
// that the test may be called.
ghost use Rattle.std.specs.Prelude.{◌≡◌};
ghost use Rattle.ring.specs.Ring.{free_at, all_count, found_at};
ghost use Rattle.rows.specs.View.{path_in};
ghost use Rattle.waiting.specs.Steps.{is_dropped};

use base::types::*;
use ring::ring::{fine, is_probe};
use ring::types::*;
use rows::places::*;
use rows::probes::*;

// The place of the first entry of the ring that is free.
pub fn first_free(p: &[[u64; 4]; ROWS]) -> Option<usize>
    ensures { result ≡ free_at (path_in p.now).ring }
{
    for i in 0..RING {
        if !sent(p, i).used {
            return Some(i);
        }
    }
    None
}

// Whether every waiting probe counts.
fn all_count(p: &[[u64; 4]; ROWS], since: Option<u32>) -> bool
    ensures { result ≡ all_count since (path_in p.now).ring }
{
    for i in 0..RING {
        if !fine(sent(p, i), since) {
            return false;
        }
    }
    true
}

// Whether there is a since to be dropped: there is one, and every waiting probe counts.
pub fn is_dropped(p: &[[u64; 4]; ROWS], since: Option<u32>) -> bool
    ensures { result ≡ is_dropped since (path_in p.now).ring }
{
    since.is_some() && all_count(p, since)
}

// The place of the first waiting probe with the identifier.
pub fn find(p: &[[u64; 4]; ROWS], id: u32) -> Option<usize>
    ensures { result ≡ found_at id (path_in p.now).ring }
{
    for i in 0..RING {
        if is_probe(sent(p, i), id) {
            return Some(i);
        }
    }
    None
}

// The place of the first late probe with the identifier.
pub fn find_late(p: &[[u64; 4]; ROWS], id: u32) -> Option<usize>
    ensures { result ≡ found_at id (path_in p.now).late }
{
    for i in 0..LATE {
        if is_probe(late(p, i), id) {
            return Some(i);
        }
    }
    None
}
