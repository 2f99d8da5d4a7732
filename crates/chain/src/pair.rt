// A hurt column together with a second hurt line, a column or a row. The chain between them begins at the column's added zero. By a
// line of slope 1 it comes to a symbol of the second line, from there by a line of slope l to one of the column, and so further.
ghost use Rattle.std.specs.Prelude.{◌≡◌, ◌-◌, ◌*◌, ◌≤◌, ◌<◌};
ghost use Rattle.residue.specs.Remainder as remainder;
ghost use Rattle.code.specs.OneLine as law;
ghost use Rattle.code.specs.declared.Line.TheVariants.{Column};
ghost use Rattle.code.specs.Held.{held};
ghost use Rattle.chain.specs.Hand.{Places, weight_of, FromColumn, FromLine};
ghost use Rattle.chain.specs.Solve.{hops_of};
ghost use Rattle.chain.specs.Sums.{SettledBy, Closes};

use crate::sums::Sums;
use code::Line;
use code::lattice::Lattice;
use walk::along::{along, take_off_common};
use walk::index::{number, step, through};

// Puts into x the change in the column, and into y that in the second line, which settle the sums.
pub fn solve(sums: &Sums, column: usize, line: Line, x: &mut [u8; 257], y: &mut [u8; 257])
    requires column_lt { column < sums.now.lattice.p }
    requires line_lt { law.number line < sums.now.lattice.p }
    requires closes { Closes sums.now column line }
    ensures { SettledBy sums.now (Column column) line x.new y.new }
{
    let Lattice { p, l } = sums.lattice;
    *x = [0u8; 257];
    along(p, number(line), 1, sums.a, y);
    let base = through(p, l, line, 0);
    // each hop fills a symbol of the second line, and each but the last one of the column
    let unfilled = 2 * hops(p, line) - 1;
    to_line(
        p,
        column,
        number(line),
        base,
        weight(l, line),
        l * column % p,
        sums.a,
        sums.b,
        x,
        y,
        p - 1,
        unfilled,
    );
    take_off_common(p, y);
}

// How many hops there are from the column to the second line: one for each cell but the crossing.
fn hops(p: usize, line: Line) -> usize
    requires { 0 < p }
    ensures { result ≡ hops_of p line }
{
    match line {
        Line::Row(_) => p - 1,
        Line::Column(_) => p,
    }
}

// How far the slope-l lines through two neighbours in the second line are from each other.
fn weight(l: usize, line: Line) -> usize
    ensures { result ≡ weight_of l line }
{
    match line {
        Line::Row(_) => l,
        Line::Column(_) => 1,
    }
}

// The slope-1 line through cell i of column c gives a symbol of the second line, which has the number n. From there the chain
// goes on, until no symbol is unfilled. The slope-l line through cell k of the second line is base + weight k, and the one through
// cell i of the column is i + back. (These are plain numbers so that the two functions compile to one loop.)
#[cycle(to_column_to_line)]
fn to_line(
    p: usize,
    c: usize,
    n: usize,
    base: usize,
    weight: usize,
    back: usize,
    a: &[u8; 257],
    b: &[u8; 257],
    x: &mut [u8; 257],
    y: &mut [u8; 257],
    i: usize,
    unfilled: usize,
)
    requires { Places p c n base weight back i }
    ensures { FromColumn p c n base weight back (held a.now) (held b.now) i unfilled (held x.old) (held y.old) (held x.new) (held y.new) }
{
    if unfilled == 0 {
        return;
    }
    let t = step(p, i, c);
    let k = before(p, n, t);
    y[k] = a[t] ^ x[i];
    to_column(p, c, n, base, weight, back, a, b, x, y, k, unfilled - 1);
}

// The slope-l line through cell k of the second line gives a symbol of the column, from which the chain goes on.
#[cycle(to_column_to_line)]
fn to_column(
    p: usize,
    c: usize,
    n: usize,
    base: usize,
    weight: usize,
    back: usize,
    a: &[u8; 257],
    b: &[u8; 257],
    x: &mut [u8; 257],
    y: &mut [u8; 257],
    k: usize,
    unfilled: usize,
)
    requires { Places p c n base weight back k }
    ensures { FromLine p c n base weight back (held a.now) (held b.now) k unfilled (held x.old) (held y.old) (held x.new) (held y.new) }
{
    if unfilled == 0 {
        return;
    }
    let t = (base + weight * k) % p;
    let i = before(p, back, t);
    x[i] = b[t] ^ y[k];
    to_line(p, c, n, base, weight, back, a, b, x, y, i, unfilled - 1);
}

// The place from which a step of k comes to t.
fn before(p: usize, k: usize, t: usize) -> usize
    requires { (k < p) × (t < p) × (p ≤ 257) }
    ensures { (result ≡ remainder.before p k t) × (result < p) }
{
    if t < k { t + p - k } else { t - k }
}
