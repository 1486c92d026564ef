// The places of the ring and of the late list.
ghost use Rattle.std.specs.Prelude.{◌≡◌};
ghost use Rattle.ring.specs.Ids.{counts_of};
ghost use Rattle.ring.specs.Ring.{max_waiting, free_at, fine_of, all_count, no_sent, is_probe, found_at, packed, taken_out, remembered, swept, outstanding_of, earliest_due};

use crate::types::{LATE, RING, Sent};

// The place of the first entry that is free.
pub fn first_free(places: &[Sent]) -> Option<usize>
    ensures { result ≡ free_at places.now }
{
    places.iter().position(|s| !s.used)
}

// Whether the mark is not after the identifier; with no mark every identifier counts.
pub fn counts(mark: Option<u32>, id: u32) -> bool
    ensures { result ≡ counts_of mark id }
{
    mark.is_none_or(|m| !base::serial::after(m, id))
}

// Free, or its lapse counts.
pub fn fine(s: Sent, since: Option<u32>) -> bool
    ensures { result ≡ fine_of since s }
{
    !s.used || counts(since, s.probe_id)
}

// Whether every waiting probe counts.
pub fn all_count(ring: &[Sent], since: Option<u32>) -> bool
    ensures { result ≡ all_count since ring.now }
{
    ring.iter().all(|s| fine(*s, since))
}

// A free place.
pub fn none() -> Sent
    ensures { result ≡ no_sent }
{
    Sent {
        at: 0,
        due: 0,
        probe_id: 0,
        len: 0,
        used: false,
    }
}

// Whether the entry is the waiting probe id.
pub fn is_probe(s: Sent, id: u32) -> bool
    ensures { result ≡ is_probe id s }
{
    s.used && s.probe_id == id
}

// The place of the first probe with the identifier, in the ring or in the late list.
pub fn find(places: &[Sent], id: u32) -> Option<usize>
    ensures { result ≡ found_at id places.now }
{
    places.iter().position(|s| is_probe(*s, id))
}

// The waiting probes at the front, in their order.
pub fn compact(ring: [Sent; RING]) -> [Sent; RING]
    ensures { result ≡ packed max_waiting ring }
{
    let mut out = [none(); RING];
    // The place of the next waiting probe: it moves only with one.
    let mut w = 0;
    for s in ring {
        if s.used {
            out[w] = s;
            w += 1;
        }
    }
    out
}

// The ring without the probe at a place, closed up in its order.
pub fn take_out(mut ring: [Sent; RING], slot: usize) -> [Sent; RING]
    ensures { result ≡ taken_out max_waiting ring slot }
{
    if slot < RING {
        ring[slot] = none();
    }
    compact(ring)
}

// The late list with one more at its end: everything shifts one place.
pub fn remember(late: [Sent; LATE], s: Sent) -> [Sent; LATE]
    ensures { result ≡ remembered late s }
{
    let [_, second, third, last] = late;
    [second, third, last, s]
}

// The late list after a sweep: the waiting probes enter it in ring order.
pub fn sweep(mut late: [Sent; LATE], ring: [Sent; RING]) -> [Sent; LATE]
    ensures { result ≡ swept late ring }
{
    for s in &ring {
        if s.used {
            // A variable of its own: the check covers no result laid straight in an array.
            let next = remember(late, *s);
            late = next;
        }
    }
    late
}

// How many probes wait.
#[tactic(auto, unfolding(crate::specs::Ring::outstanding_of))]
pub fn outstanding(ring: [Sent; RING]) -> usize
    ensures { result ≡ outstanding_of ring }
{
    ring.iter().filter(|s| s.used).count()
}

// The earliest due instant of the waiting probes.
pub fn earliest_due(ring: [Sent; RING]) -> Option<u64>
    ensures { result ≡ earliest_due ring }
{
    ring.iter().filter(|s| s.used).map(|s| s.due).min()
}
