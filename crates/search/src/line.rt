// The search for the line that explains a hurt tile. It has the sums of the second slope in an array; a sum of slope 1 is taken from the
// tile when it is compared.
ghost use Rattle.std.specs.Prelude.{◌≡◌, ◌≤◌, ◌<◌, length};
ghost use Rattle.code.specs.Tile.{cell, sum, tile_length};
ghost use Rattle.code.specs.Held.{held};
ghost use Rattle.search.specs.Line.{Searched};

use walk::index::step;
use walk::sums::line_sum;

// A tile and the sums of its second slope, with the place at which every comparison begins.
#[derive(Clone, Copy)]
pub struct Scan<'a> {
    pub p: usize,
    pub begin: usize,
    pub tile: &'a [u8],
    pub sums: &'a [u8; 257],
    pub ghost low: { 3 ≤ p },
    pub ghost high: { p ≤ 257 },
    pub ghost begin_lt: { begin < p },
    pub ghost tile_len: { length tile.now ≡ tile_length p },
}

impl Scan<'_> {
    // The first row or column along which the sums of both slopes agree, if there is one. Along line n, the sum of slope 1 of line
    // t has to be the one at the place shift n + weight t modulo p. The lines are tried in their order, and each is given up at the first
    // sum that differs. All begin at the same place, so that the first two sums of slope 1 are taken but once: where these two differ, they are
    // enough to give up nearly every wrong line. (Two loops left by a label: docs/DECISIONS.md, "The forms
    // that the house asked for".)
    pub fn explaining(&self, shift: usize, weight: usize) -> Option<usize>
        requires { (shift < self.now.p) × (weight < self.now.p) }
        ensures { Searched self.now.p shift weight (sum self.now.p 1 (cell self.now.p self.now.tile.now)) (held self.now.sums.now) result }
    {
        let Scan {
            p,
            begin,
            tile,
            sums,
        } = *self;
        let here = line_sum(p, begin, tile);
        let next = line_sum(p, step(p, begin, 1), tile);
        let mut place = weight * begin % p;
        'search: {
            'lines: for n in 0..p - 1 {
                let mut t = begin;
                let mut u = place;
                place = step(p, place, shift);
                for k in 0..p {
                    if sums[u] != self.sum_after(k, here, next, t) {
                        continue 'lines;
                    }
                    t = step(p, t, 1);
                    u = step(p, u, weight);
                }
                break 'search Some(n);
            }
            None
        }
    }

    // The sum of line t, k lines after the first: that of the first two is known.
    fn sum_after(&self, k: usize, here: u8, next: u8, t: usize) -> u8
        requires t_lt { t < self.now.p }
        requires here_value { let A = sum self.now.p 1 (cell self.now.p self.now.tile.now) in (k ≡ 0 → here ≡ A t) × (k ≡ 1 → next ≡ A t) }
        ensures { result ≡ sum self.now.p 1 (cell self.now.p self.now.tile.now) t }
    {
        match k {
            0 => here,
            1 => next,
            _ => line_sum(self.p, t, self.tile),
        }
    }
}
