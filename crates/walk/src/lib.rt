// The walk of a tile: the sums of its lines, and whether all are one. It asks that the size is judged and the length right; the
// tile calls see to that. (A size and a slope are two numbers here and no Lattice, whose slope is at least 2: a slope may be 1 here, and
// that of the turned tile.)
#![tactic(auto)]

pub mod along;
pub mod index;
pub mod sums;
pub mod turn;
