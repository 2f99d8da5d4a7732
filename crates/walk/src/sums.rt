// The sums of a tile's lines.
ghost use Rattle.std.specs.Prelude.{◌≡◌, ℕ, ◌+◌, ◌-◌, ◌*◌, ◌≤◌, ◌<◌, length};
ghost use Rattle.xor.specs.Sum.{xor_below};
ghost use Rattle.code.specs.Tile.{cell, sum, tile_length, Good};
ghost use Rattle.code.specs.Turn as law;
ghost use Rattle.code.specs.Says.{Says};
ghost use Rattle.code.specs.Held.{held};
ghost use Rattle.walk.specs.Sums.{Shape, Sums, FirstOther};
ghost use Rattle.walk.specs.Walk.{BytesAdded, RowAdded};

use crate::along::along;
use crate::index::step;
use crate::turn::inverse;

// The sums of the lines of slope 1, and of those of slope l: that of line t stands at t. (An array that nobody lent is filled first: so the
// compiler knows that it is no part of the tile, and takes wide steps.)
pub fn both_sums(p: usize, l: usize, tile: &[u8], a: &mut [u8; 257], b: &mut [u8; 257])
    requires shape { Shape p l (length tile.now) }
    ensures sums { Sums p 1 (cell p tile.now) a.new }
    ensures sums_2 { Sums p l (cell p tile.now) b.new }
{
    // line t of slope l is the turned tile's line m t of the inverse slope m
    let m = inverse(p, l);
    let mut sums = [0u8; 257];
    turned_sums(p, m, tile, &mut sums);
    along(p, 0, m, &sums, b);
    // its sums of slope 1 are the tile's own
    turned_sums(p, 1, tile, &mut sums);
    *a = sums;
}

// The sums of the turned tile's lines of slope m. The tile is walked row by row: its rows are the turned tile's columns, and
// neighbours in a column are on neighbouring lines.
pub fn turned_sums(p: usize, m: usize, tile: &[u8], sums: &mut [u8; 257])
    requires { (2 ≤ p) × (p ≤ 257) × (m < p) × (length tile.now ≡ tile_length p) }
    ensures { Sums p m (law.turned (cell p tile.now)) sums.new }
{
    *sums = [0u8; 257];
    let mut first = 0; // the line of the row's first cell: m i modulo p
    for i in 0..p - 1 {
        let start = i * (p - 1);
        add_row(p, &tile[start..start + (p - 1)], first, sums);
        first = step(p, first, m);
    }
}

// Adds the bytes of a row to the sums of the lines from `first` on. After the last line comes line 0.
fn add_row(p: usize, row: &[u8], first: usize, sums: &mut [u8; 257])
    requires { (p ≤ 257) × (first < p) × (length row.now ≡ p - 1) }
    ensures { RowAdded p row.now first sums.old sums.new }
{
    if first == 0 {
        add_bytes(row, sums, 0);
    } else {
        let (ahead, behind) = row.split_at(p - first);
        add_bytes(ahead, sums, first);
        add_bytes(behind, sums, 0);
    }
}

// Adds bytes to as many sums, from `first` on. (One run in memory on either side, so that it compiles to wide steps.)
fn add_bytes(bytes: &[u8], sums: &mut [u8; 257], first: usize)
    requires { first + length bytes.now ≤ 257 }
    ensures { BytesAdded bytes.now (length bytes.now) first sums.old sums.new }
{
    for (k, byte) in bytes.iter().enumerate() {
        sums[first + k] ^= *byte;
    }
}

// The sum of one line of slope 1. From row `below` on its cells go down to the left, beginning in the last column. The row above that has
// none, and in the rows before they go down to the left too, from row 0 on.
pub fn line_sum(p: usize, t: usize, tile: &[u8]) -> u8
    requires { (3 ≤ p) × (p ≤ 257) × (t < p) × (length tile.now ≡ tile_length p) }
    ensures { result ≡ sum p 1 (cell p tile.now) t }
{
    let below = step(p, t, 2);
    let lower = run_sum(tile, below * (p - 1) + (p - 2), p - 2, p - 1 - below);
    if below < 2 {
        return lower;
    }
    lower ^ run_sum(tile, t, p - 2, t + 1)
}

// The sum of `count` bytes, the first at `start` and each `step` after the one before it. (By their places, and by no slice from
// `start` on: where the count is 0, `start` may be past the tile's end.)
fn run_sum(tile: &[u8], start: usize, step: usize, count: usize) -> u8
    requires { (start + step * count ≤ 200000) × ((k : ℕ) → k < count → start + step * k < length tile.now) }
    ensures { result ≡ xor_below count (λ k. held tile.now (start + step * k)) }
{
    let mut sum = 0;
    for k in 0..count {
        sum ^= tile[start + step * k];
    }
    sum
}

// Is the tile good?
pub fn is_good(p: usize, l: usize, tile: &[u8]) -> bool
    requires { Shape p l (length tile.now) }
    ensures { Says result (Good p l tile.now) }
{
    let mut sums = [0u8; 257];
    turned_sums(p, 1, tile, &mut sums);
    let common = sums[0];
    if first_other(p, common, &sums).is_some() {
        return false;
    }
    turned_sums(p, inverse(p, l), tile, &mut sums);
    first_other(p, common, &sums).is_none()
}

// The place of the first sum that is another byte than this one, if there is one.
pub fn first_other(p: usize, common: u8, sums: &[u8; 257]) -> Option<usize>
    requires { p ≤ 257 }
    ensures { FirstOther p common (held sums.now) result }
{
    sums[..p].iter().position(|sum| *sum != common)
}
