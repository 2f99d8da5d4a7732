// Which line of a tile is hurt, and by what.
ghost use Rattle.std.specs.Prelude.{◌≡◌, ◌≢◌, ◌+◌, ◌≤◌, ◌<◌, length};
ghost use Rattle.code.specs.Kind.{Takes};
ghost use Rattle.code.specs.Tile.{cell, sum, tile_length};
ghost use Rattle.code.specs.Turn as law;
ghost use Rattle.code.specs.Held.{held};
ghost use Rattle.walk.specs.Sums.{Sums};
ghost use Rattle.search.specs.Hurt.{Found, Explained, NextChanged, AlsoRow};

use crate::line::Scan;
use code::lattice::Lattice;
use code::{Kind, Line};
use size::Unclear;
use walk::along::shifted;
use walk::sums::{first_other, turned_sums};
use walk::turn::inverse;

// The hurt line of a tile, or none where nothing is hurt; the change that mends it is left in `change`. The tile is damaged where no line
// explains it, and doubtful where a column and a row do, and it cannot be told which. One array holds the sums: those of
// slope 1, and then those of the turned tile's slope.
pub fn find(
    kind: Kind,
    lattice: Lattice,
    tile: &[u8],
    change: &mut [u8; 257],
) -> Result<Option<Line>, Unclear>
    requires takes { Takes kind lattice.p lattice.l }
    requires tile_len { length tile.now ≡ tile_length lattice.p }
    ensures { let p = lattice.p in let l = lattice.l in Found p l (sum p 1 (cell p tile.now)) (sum p l (cell p tile.now)) (held change.new) result }
{
    let Lattice { p, l } = lattice;
    let mut sums = [0u8; 257];
    turned_sums(p, 1, tile, &mut sums);
    let common = sums[0];
    let other = first_other(p, common, &sums);
    let m = inverse(p, l);
    turned_sums(p, m, tile, &mut sums);
    if let Some(other) = other {
        let scan = Scan {
            p,
            begin: other - 1,
            tile,
            sums: &sums,
        };
        let line = explain(kind, m, &scan, change)?;
        return Ok(Some(line));
    }
    // no line explains a tile in which the sums of slope 1 are one byte and those of the second slope are not
    match first_other(p, common, &sums) {
        Some(_) => Err(Unclear::Damaged),
        None => Ok(None),
    }
}

// The line that explains a tile whose sums of slope 1 differ at the scan's beginning and the place after it; the scan has those of the
// turned tile's slope m. Line n of slope 1 meets column c at the place (1 - m) c + m n of these, and row r at (m - 1) r + n. If a column
// explains the tile, no other column does by another tile, but a row may.
fn explain(kind: Kind, m: usize, scan: &Scan, change: &mut [u8; 257]) -> Result<Line, Unclear>
    requires le_m { (2 ≤ m) × (m < scan.now.p) × (scan.now.begin + 1 < scan.now.p) }
    requires sums { Sums scan.now.p m (law.turned (cell scan.now.p scan.now.tile.now)) scan.now.sums.now }
    requires begin_nonzero { let A = sum scan.now.p 1 (cell scan.now.p scan.now.tile.now) in A scan.now.begin ≢ A (scan.now.begin + 1) }
    ensures { Explained kind scan.now.p m (cell scan.now.p scan.now.tile.now) (held change.new) result }
{
    let p = scan.p;
    if let Some(c) = scan.explaining(p + 1 - m, m) {
        shifted(p, c, m, scan.sums, change);
        if also_a_row(kind, m, scan, change) {
            return Err(Unclear::Doubtful);
        }
        return Ok(Line::Column(c));
    }
    let Some(r) = scan.explaining(m - 1, 1) else {
        return Err(Unclear::Damaged);
    };
    shifted(p, m * r % p, 1, scan.sums, change);
    Ok(Line::Row(r))
}

// Does a row explain the tile too, by another tile than the column whose change this is? At a slope that reaches all, as a new tile's does,
// none does; nor where the change has one byte, which is one of a row as well.
fn also_a_row(kind: Kind, m: usize, scan: &Scan, change: &[u8; 257]) -> bool
    requires { (2 ≤ m) × (m < scan.now.p) }
    ensures { AlsoRow kind scan.now.p m (sum scan.now.p 1 (cell scan.now.p scan.now.tile.now)) (held scan.now.sums.now) (held change.now) result }
{
    let Kind::Old = kind else {
        return false;
    };
    let Some(k) = next_changed(change, 0, scan.p - 1) else {
        return false;
    };
    if next_changed(change, k + 1, scan.p - 1).is_none() {
        return false;
    }
    scan.explaining(m - 1, 1).is_some()
}

// The first place from `from` on, below `end`, at which a change is not zero, if there is one.
pub fn next_changed(change: &[u8; 257], from: usize, end: usize) -> Option<usize>
    requires { end ≤ 257 }
    ensures { NextChanged (held change.now) from end result }
{
    (from..end).find(|k| change[*k] != 0)
}
