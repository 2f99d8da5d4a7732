// The tile calls: write, read, repair, inspect, recover, fill and judge. None asks anything of its input: what cannot be done is refused by
// number, and a refused call changes no byte that was lent to it. They stand in crates of their own; here are all of them, for users.
#![tactic(auto)]

pub use filler::fill;
pub use judge::judge;
pub use mender::{inspect, recover, repair};
pub use promise::{Repaired, judge_tile};
pub use writer::{read, write};

// A line of a tile: a row or a column, by its number from 0.
pub type Line = code::Line;

// The kind of a tile: new, with a slope that is allowed, or old, with any from 2 to p - 2.
pub type Kind = code::Kind;
