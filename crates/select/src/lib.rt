// The choice among a link's paths: what rivals are, roles and media, and what the choice's functions answer.
#![tactic(auto)]

pub mod media;
pub mod types;
