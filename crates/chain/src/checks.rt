// The two check columns of a tile.
ghost use Rattle.std.specs.Prelude.{◌≡◌, ◌-◌, length};
ghost use Rattle.xor.specs.Sum.{xor_below};
ghost use Rattle.code.specs.Tile.{tile_length};
ghost use Rattle.code.specs.declared.Line.TheVariants.{Column};
ghost use Rattle.code.specs.Held.{held};
ghost use Rattle.chain.specs.Settled.{LinesSettled};

use crate::pair;
use crate::sums::Sums;
use cells::change::add_line;
use code::Line;
use code::lattice::Lattice;

// Adds to the check columns the changes that settle the sums a and b.
pub fn settle(lattice: Lattice, a: &[u8; 257], b: &[u8; 257], tile: &mut [u8])
    requires tile_len { length tile.old ≡ tile_length lattice.p }
    requires a_value { xor_below lattice.p (held a.now) ≡ xor_below lattice.p (held b.now) }
    ensures { LinesSettled lattice.p lattice.l (Column (lattice.p - 3)) (Column (lattice.p - 2)) (held a.now) (held b.now) tile.old tile.new }
{
    let p = lattice.p;
    let first = p - 3;
    let second = p - 2;
    let sums = Sums { lattice, a, b };
    let mut x = [0u8; 257];
    let mut y = [0u8; 257];
    pair::solve(&sums, first, Line::Column(second), &mut x, &mut y);
    add_line(p, Line::Column(first), &x, tile);
    add_line(p, Line::Column(second), &y, tile);
}
