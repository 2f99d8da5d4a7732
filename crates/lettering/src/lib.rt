// The lines of a listing as text, letter by letter. Nothing is written here: that is for the crate `listing`.
#![tactic(auto)]

pub mod line;
