// A slot's marks, a record's settings and an event, as words: what they say, and the words that say a given one.
#![tactic(auto)]

pub mod events;
pub mod marks;
