// The ring of waiting probes and the late list; what they and a path's identifiers are made of.
#![tactic(auto)]

pub mod ring;
pub mod types;
