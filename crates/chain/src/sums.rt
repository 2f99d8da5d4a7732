// The sums that a change in two lines of a tile has to settle.
ghost use Rattle.std.specs.Prelude.{◌≡◌};
ghost use Rattle.xor.specs.Sum.{xor_below};
ghost use Rattle.code.specs.Held.{held};

use code::lattice::Lattice;

// The sums of the lines of a tile: in a those of slope 1, and in b those of slope l. Each has the same total, the tile's.
#[derive(Clone, Copy)]
pub struct Sums<'a> {
    pub lattice: Lattice,
    pub a: &'a [u8; 257],
    pub b: &'a [u8; 257],
    pub ghost one_total: { xor_below lattice.p (held a.now) ≡ xor_below lattice.p (held b.now) },
}
