// The ring and the late list of a slot in lent rows: searched, closed up and stored in place.
#![tactic(auto)]

pub mod search;
pub mod store;
