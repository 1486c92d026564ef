// Rows of four words, whose definitions say what a row says, and the row that says a given thing; here the single words.
#![tactic(auto)]

pub mod words;
