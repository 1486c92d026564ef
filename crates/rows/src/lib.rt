// A slot of a record in lent rows of four words, which are changed in place.
#![tactic(auto)]

pub mod places;
pub mod probes;
pub mod whole;
