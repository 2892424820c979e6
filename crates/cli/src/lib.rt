// The program of document 01: it reads its words and its text, and prints a refusal or all groups and the totals.
#![tactic(auto)]

pub mod program;
pub mod reading;
