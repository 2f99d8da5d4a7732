// What is put into the cells of a tile and taken out of them: a text, and a change in a line. It asks that the lengths are right; the
// tile calls see to that.
#![tactic(auto)]

pub mod change;
pub mod text;

ghost use Rattle.std.specs.Prelude.{◌≡◌, ◌-◌, ◌≤◌, ◌<◌};
ghost use Rattle.code.specs.Tile as tile;

// Where the cell in row i and column j stands in memory.
pub fn place(p: usize, i: usize, j: usize) -> usize
    requires { (i < p - 1) × (j < p - 1) × (p ≤ 257) }
    ensures { result ≡ tile.place p i j }
{
    i * (p - 1) + j
}
