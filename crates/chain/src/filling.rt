// The changes that fill one or two flagged lines.
ghost use Rattle.std.specs.Prelude.{◌≡◌, ◌-◌, ◌<◌, length};
ghost use Rattle.code.specs.Kind.{Takes};
ghost use Rattle.code.specs.Tile.{cell, sum, tile_length};
ghost use Rattle.code.specs.OneLine as law;
ghost use Rattle.code.specs.declared.Line.TheVariants.{Row, Column};
ghost use Rattle.code.specs.Held.{held};
ghost use Rattle.code.specs.Says.{Says};
ghost use Rattle.chain.specs.Solve as chain;
ghost use Rattle.chain.specs.Sums.{Solved};

use crate::pair;
use crate::sums::Sums;
use classes::Crossing;
use code::lattice::Lattice;
use code::{Kind, Line};
use size::Unclear;
use walk::along::{along, shifted};
use walk::index::step;
use walk::sums::both_sums;
use walk::turn::inverse;

// The filling of two lines of a tile, or of one line named twice: the changes in the first line and in the second that make it, where there
// is one and no other. (The lines and their changes are passed one by one, as what is promised of them, Solved, names them.)
pub fn solve(
    kind: Kind,
    lattice: Lattice,
    tile: &[u8],
    first: Line,
    second: Line,
    x: &mut [u8; 257],
    y: &mut [u8; 257],
) -> Result<(), Unclear>
    requires takes { Takes kind lattice.p lattice.l }
    requires tile_len { length tile.now ≡ tile_length lattice.p }
    requires first_lt { law.number first < lattice.p - 1 }
    requires second_lt { law.number second < lattice.p - 1 }
    ensures { let p = lattice.p in let l = lattice.l in chain.Solved p l first second (sum p 1 (cell p tile.now)) (sum p l (cell p tile.now)) (held x.new) (held y.new) result }
{
    let mut a = [0u8; 257];
    let mut b = [0u8; 257];
    both_sums(lattice.p, lattice.l, tile, &mut a, &mut b);
    let sums = Sums {
        lattice,
        a: &a,
        b: &b,
    };
    settle(kind, &sums, first, second, x, y)
}

// The changes in the two lines that settle the sums. (A struct of the two arrays would be no plainer: it would be made the other way round
// where a row comes first, and taken apart for `shifted`, which fills one of them, and for the chain, which fills them by turns.)
fn settle(
    kind: Kind,
    sums: &Sums,
    first: Line,
    second: Line,
    x: &mut [u8; 257],
    y: &mut [u8; 257],
) -> Result<(), Unclear>
    requires takes { Takes kind sums.now.lattice.p sums.now.lattice.l }
    requires first_lt { law.number first < sums.now.lattice.p - 1 }
    requires second_lt { law.number second < sums.now.lattice.p - 1 }
    ensures { Solved sums.now first second x.new y.new result }
{
    match (first, second) {
        (Line::Row(r), Line::Row(s)) => rows(sums, r, s, x, y),
        (Line::Row(s), Line::Column(t)) => crossed(kind, sums, t, s, y, x),
        (Line::Column(t), Line::Row(s)) => crossed(kind, sums, t, s, x, y),
        (Line::Column(u), Line::Column(v)) => columns(sums, u, v, x, y),
    }
}

// Two rows, or one named twice: they are columns of the turned tile, whose sums of slope 1 are the same.
fn rows(
    sums: &Sums,
    r: usize,
    s: usize,
    x: &mut [u8; 257],
    y: &mut [u8; 257],
) -> Result<(), Unclear>
    requires r_lt { r < sums.now.lattice.p - 1 }
    requires s_lt { s < sums.now.lattice.p - 1 }
    ensures { Solved sums.now (Row r) (Row s) x.new y.new result }
{
    let Lattice { p, l } = sums.lattice;
    let mut turned = [0u8; 257];
    along(p, 0, l, sums.b, &mut turned);
    let lattice = Lattice {
        p,
        l: inverse(p, l),
    };
    let sums = Sums {
        lattice,
        a: sums.a,
        b: &turned,
    };
    columns(&sums, r, s, x, y)
}

// Two columns, for which there is a filling whatever the sums; or one column, named twice, for which there need not be.
fn columns(
    sums: &Sums,
    u: usize,
    v: usize,
    x: &mut [u8; 257],
    y: &mut [u8; 257],
) -> Result<(), Unclear>
    requires u_lt { u < sums.now.lattice.p - 1 }
    requires v_lt { v < sums.now.lattice.p - 1 }
    ensures { Solved sums.now (Column u) (Column v) x.new y.new result }
{
    if u == v {
        one_column(sums, u, x, y)
    } else {
        pair::solve(sums, u, Line::Column(v), x, y);
        Ok(())
    }
}

// One column, named twice: it has a filling where the sums agree along it.
fn one_column(sums: &Sums, c: usize, x: &mut [u8; 257], y: &mut [u8; 257]) -> Result<(), Unclear>
    requires { c < sums.now.lattice.p - 1 }
    ensures { Solved sums.now (Column c) (Column c) x.new y.new result }
{
    if !agree(sums, c) {
        return Err(Unclear::Damaged);
    }
    shifted(sums.lattice.p, c, 1, sums.a, x);
    *y = [0u8; 257];
    Ok(())
}

// Do the sums agree along a column?
fn agree(sums: &Sums, c: usize) -> bool
    requires { c < sums.now.lattice.p }
    ensures { Says result (law.Agree sums.now.lattice.p sums.now.lattice.l (held sums.now.a.now) (held sums.now.b.now) (Column c)) }
{
    let Lattice { p, l } = sums.lattice;
    let mut t = c;
    let mut u = l * c % p;
    for _ in 0..p {
        if sums.a[t] != sums.b[u] {
            return false;
        }
        t = step(p, t, 1);
        u = step(p, u, 1);
    }
    true
}

// Column t with row s.
fn crossed(
    kind: Kind,
    sums: &Sums,
    t: usize,
    s: usize,
    x: &mut [u8; 257],
    y: &mut [u8; 257],
) -> Result<(), Unclear>
    requires takes { Takes kind sums.now.lattice.p sums.now.lattice.l }
    requires t_lt { t < sums.now.lattice.p - 1 }
    requires s_lt { s < sums.now.lattice.p - 1 }
    ensures { Solved sums.now (Column t) (Row s) x.new y.new result }
{
    let crossing = Crossing {
        lattice: sums.lattice,
        row: s,
        column: t,
        a: sums.a,
        b: sums.b,
    };
    classes::crossed_fillings(kind, &crossing)?;
    pair::solve(sums, t, Line::Row(s), x, y);
    Ok(())
}
