// The events on probes, on a slot in lent rows, in place.
#![tactic(auto)]

pub mod events;
pub mod lapse;
