// A peer record in lent words: four settings, and eight slots of rows.
#![tactic(auto)]

ghost use Rattle.peer.specs.Calls.{CallsHold};

pub mod record;

// What holds after any list of calls on one record.
pub fn calls()
    ensures { CallsHold }
{}
