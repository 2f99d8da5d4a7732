// The turned tile: its columns are the tile's rows, and its slope is the inverse of the tile's.
ghost use Rattle.std.specs.Prelude.{◌≡◌, ◌*◌, ◌%◌, ◌≤◌, ◌<◌};
ghost use Rattle.residue.specs.Prime.{Prime};

use crate::index::step;

// The inverse of the slope l, which may be 1. (The multiples of l are counted until one is 1: a `for` would need an end to its range, which
// is never reached, and after it a line that is never run.)
pub fn inverse(p: usize, l: usize) -> usize
    requires prime { Prime p }
    requires l_nonzero { (0 < l) × (l < p) × (p ≤ 257) }
    ensures { (l * result % p ≡ 1) × (result < p) }
{
    let mut m = 1;
    let mut multiple = l; // l m modulo p
    while multiple != 1 {
        multiple = step(p, multiple, l);
        m += 1;
    }
    m
}
