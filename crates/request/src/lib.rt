// What the program is asked: its words and its text, read and judged.
#![tactic(auto)]

pub mod listing;
pub mod verdict;
pub mod words;
