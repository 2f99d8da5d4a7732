// How many fillings a row with a column has, at any slope. Counted from their crossing, the chain between them goes from the offset o to
// l o, from there to l² o, and so further until it is back at o: these offsets are the class of o. Where the powers of l reach all there is
// one class. Where they do not, the sums of both slopes have to agree over each class by itself, or there is no filling.
#![tactic(auto)]

ghost use Rattle.std.specs.Prelude.{◌≡◌, ◌-◌, ◌<◌};
ghost use Rattle.residue.specs.Power.{ReachesAll};
ghost use Rattle.residue.specs.Order.{Order};
ghost use Rattle.code.specs.Kind.{Takes};
ghost use Rattle.code.specs.Classes.{ClassesAgree, class_sum};
ghost use Rattle.code.specs.Held.{held};
ghost use Rattle.code.specs.Says.{Says};
ghost use Rattle.classes.specs.Many.{CrossedMany};

use code::lattice::Lattice;
use code::{Kind, Line};
use size::Unclear;
use walk::index::through;

// A row and a column of a tile, where they cross, and the sums of the tile's lines: in a those of slope 1, and in b those of slope l.
#[derive(Clone, Copy)]
pub struct Crossing<'a> {
    pub lattice: Lattice,
    pub row: usize,
    pub column: usize,
    pub a: &'a [u8; 257],
    pub b: &'a [u8; 257],
    pub ghost row_lt: { row < lattice.p - 1 },
    pub ghost column_lt: { column < lattice.p - 1 },
}

// Has the column with the row one filling? The powers of a new tile's slope reach all, and so may those of an old one's; where they do not,
// there are several, and the tile is doubtful, or none, and it is damaged.
pub fn crossed_fillings(kind: Kind, crossing: &Crossing) -> Result<(), Unclear>
    requires takes { Takes kind crossing.now.lattice.p crossing.now.lattice.l }
    ensures { CrossedMany crossing.now.lattice.p crossing.now.lattice.l crossing.now.column crossing.now.row (held crossing.now.a.now) (held crossing.now.b.now) result }
{
    match kind {
        Kind::New => crossing.reaching(),
        Kind::Old => {
            let n = order(crossing.lattice);
            if n == crossing.lattice.p - 1 {
                crossing.reaching()
            } else if crossing.agree(n) {
                Err(Unclear::Doubtful)
            } else {
                Err(Unclear::Damaged)
            }
        }
    }
}

impl Crossing<'_> {
    // The same at a slope whose powers reach all: one, where the two sums through the crossing agree, and else none.
    fn reaching(&self) -> Result<(), Unclear>
        requires reaches_all { ReachesAll self.now.lattice.p self.now.lattice.l }
        ensures { CrossedMany self.now.lattice.p self.now.lattice.l self.now.column self.now.row (held self.now.a.now) (held self.now.b.now) result }
    {
        let Lattice { p, l } = self.lattice;
        let first = through(p, 1, Line::Row(self.row), self.column);
        let second = through(p, l, Line::Row(self.row), self.column);
        if self.a[first] == self.b[second] {
            Ok(())
        } else {
            Err(Unclear::Damaged)
        }
    }

    // Do the sums agree through the crossing, and over each class of offsets from it? A class is looked at once for each of its offsets, so
    // that nothing has to be kept of those that were.
    fn agree(&self, n: usize) -> bool
        ensures { Says result (ClassesAgree self.now.lattice.p self.now.lattice.l n (held self.now.a.now) (held self.now.b.now) self.now.row self.now.column) }
    {
        let Lattice { p, l } = self.lattice;
        let s = self.row;
        let t = self.column;
        if self.a[(s + t) % p] != self.b[(s + l * t) % p] {
            return false;
        }
        (1..p).find(|o| self.class_sum(n, *o) != 0).is_none()
    }

    // The XOR of the sums of both slopes through the row's cells at the offsets o, l o, l² o, .., n of them: with the order as n, up to
    // where the walk is back at o.
    fn class_sum(&self, n: usize, o: usize) -> u8
        requires { o < self.now.lattice.p }
        ensures { result ≡ class_sum self.now.lattice.p self.now.lattice.l n (held self.now.a.now) (held self.now.b.now) self.now.row self.now.column o }
    {
        let Lattice { p, l } = self.lattice;
        let mut sum = 0;
        let mut q = o;
        for _ in 0..n {
            let j = (self.column + q) % p;
            sum ^= self.a[(self.row + j) % p] ^ self.b[(self.row + l * j) % p];
            q = l * q % p;
        }
        sum
    }
}

// The order of l: how many steps take the chain back to where it began, from any offset. So many powers of l there are. (They are counted
// until one is 1: a `for` would need an end to its range, which is never reached, and after it a line that is never run.)
fn order(lattice: Lattice) -> usize
    ensures order { Order lattice.p lattice.l result }
    ensures upper_bound { result < lattice.p }
{
    let Lattice { p, l } = lattice;
    let mut n = 1;
    let mut power = l; // the n-th
    while power != 1 {
        power = power * l % p;
        n += 1;
    }
    n
}
