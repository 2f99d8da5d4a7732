// A size of tiles together with the slope of their second diagonals.
ghost use Rattle.std.specs.Prelude.{◌≤◌};
ghost use Rattle.code.specs.Slope.{Slope};

// SPEC 4.1: the square of p by p, which is cut into diagonals in two ways, of slope 1 and of slope l. p is a prime of at most 257, and l is
// from 2 to p-2; nothing is said of the kinds of tile that take l.
#[derive(Clone, Copy)]
pub struct Lattice {
    pub p: usize,
    pub l: usize,
    pub ghost slope: { Slope p l },
    pub ghost high: { p ≤ 257 },
}
