// The script of the program `worked`: how its questions are read and its answers written, and the questions that change nothing. What a
// question looks like is said at the top of crates/worked/stdin.
#![tactic(auto)]

pub mod answer;
pub mod look;
pub mod question;
