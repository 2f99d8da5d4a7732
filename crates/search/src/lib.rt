// The search for one hurt line, from the sums of the lines. It asks that the size and slope are judged and the length right; the
// tile calls see to that.
#![tactic(auto)]

pub mod hurt;
pub mod line;
