// The slot as a whole: its marks, and a new or an empty one stored over all rows.
ghost use Rattle.std.specs.Prelude.{◌≡◌};
ghost use Rattle.live.specs.New.{new_liveness};
ghost use Rattle.rules.specs.Rules.{empty_slot};
ghost use Rattle.rows.specs.View.{slot_in};
ghost use Rattle.rows.specs.Encode.{slot_rows, empty_rows};

use crate::places::*;
use crate::probes::*;
use labels::marks::*;
use pathwords::measures::etx_word;
use rules::types::*;
use select::types::*;

// Whether the slot holds a path.
pub fn used(p: &[[u64; 4]; ROWS]) -> bool
    ensures { result ≡ (slot_in p.now).used }
{
    used_in(p[MARKS_AT][2])
}

// What the slot's open said.
pub fn label(p: &[[u64; 4]; ROWS]) -> Label
    ensures { result ≡ (slot_in p.now).label }
{
    label_in(p[MARKS_AT][2])
}

// Every row 0.
fn wipe(p: &mut [[u64; 4]; ROWS])
    ensures { p.new ≡ empty_rows }
{
    for i in 0..ROWS {
        p[i] = [0; 4];
    }
}

// Stores a slot with a path that has done nothing.
pub fn set_new(p: &mut [[u64; 4]; ROWS], used: bool, label: Label)
    ensures { (p.new ≡ slot_rows (record { path = new_liveness; label = label; used = used }))
        × (slot_in p.new ≡ record { path = new_liveness; label = label; used = used }) }
{
    wipe(p);
    p[TRIPS_AT] = [0, etx_word(1.0), 0, 0];
    p[MARKS_AT] = [0, 0, label_word(used, label), 0];
}

// Stores an empty slot.
pub fn set_empty(p: &mut [[u64; 4]; ROWS])
    ensures { (p.new ≡ slot_rows empty_slot) × (slot_in p.new ≡ empty_slot) }
{
    set_new(p, false, label_in(0));
}
