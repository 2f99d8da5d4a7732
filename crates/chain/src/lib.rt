// The chain through two lost lines, from the sums of the lines: the changes that fill them, and those in the two check columns. It asks
// that the size and slope are judged and the lengths right; the tile calls see to that.
#![tactic(auto)]

pub mod checks;
pub mod filling;
pub mod pair;
pub mod sums;
