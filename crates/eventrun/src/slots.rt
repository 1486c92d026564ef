// The standings of the open slots, each behind its slot's number.
ghost use Rattle.std.specs.Prelude.{◌≡◌, map, ◌≤◌, length};
ghost use Rattle.octets.specs.Octets.{over};
ghost use Rattle.rows.specs.View.{slot_in};
ghost use Rattle.eventrun.specs.Runs.{slot_bytes, slot_size, standings_of};

use queries::standings::told;
use rows::places::ROWS;
use rows::whole::used;
use select::types::PATH_MAX_PER_PEER;

// The bytes of a slot: none where it is empty.
fn slot_size(p: &[[u64; 4]; ROWS]) -> usize
    ensures { (result ≡ slot_size (slot_in p.now)) × (result ≤ 52) }
{
    if used(p) {
        1 + standing::size(told(p))
    } else {
        0
    }
}

// The bytes of eight slots.
pub fn slots_size(rec: &[[[u64; 4]; ROWS]; PATH_MAX_PER_PEER]) -> usize
    ensures { (result ≡ length (standings_of (map slot_in rec.now))) × (result ≤ 416) }
{
    let mut n: usize = 0;
    for p in rec {
        n += slot_size(p);
    }
    n
}

// Writes the number of an open slot and its standing over the front of `out`, or nothing where they do not fit; says
// how many bytes they have.
fn write_slot(i: usize, p: &[[u64; 4]; ROWS], out: &mut [u8]) -> usize
    ensures { (result ≡ slot_size (slot_in p.now))
        × (out.new ≡ over (slot_bytes i (slot_in p.now)) out.old) }
{
    let n = slot_size(p);
    if out.len() < n {
        return n;
    }
    if used(p) {
        octets::put(&mut out[0..], 1, i as u64);
        let _ = standing::write(told(p), &mut out[1..]);
        return n;
    }
    n
}

// Writes the standings of the open slots over the front of `out`, or nothing where they do not fit.
pub fn write_slots(rec: &[[[u64; 4]; ROWS]; PATH_MAX_PER_PEER], out: &mut [u8])
    ensures { out.new ≡ over (standings_of (map slot_in rec.now)) out.old }
{
    if out.len() < slots_size(rec) {
        return;
    }
    let mut at: usize = 0;
    for (i, p) in rec.iter().enumerate() {
        at += write_slot(i, p, &mut out[at..]);
    }
}
