// Changes in a line, and how they are made to a tile, or to its text.
ghost use Rattle.std.specs.Prelude.{◌≡◌, ◌+◌, ◌-◌, ◌*◌, ◌≤◌, ◌<◌, length};
ghost use Rattle.code.specs.Tile.{tile_length, text_length};
ghost use Rattle.code.specs.OneLine as law;
ghost use Rattle.code.specs.Held.{held};
ghost use Rattle.cells.specs.Change.{Added, RowsAdded, RunAdded};

use code::Line;

// Adds a change to a row or a column: its k-th cell gets the k-th byte added.
pub fn add_line(p: usize, line: Line, change: &[u8; 257], tile: &mut [u8])
    requires { (2 ≤ p) × (p ≤ 257) × (length tile.old ≡ tile_length p) × (law.number line < p - 1) }
    ensures added { Added p (law.along line (held change.now)) tile.old tile.new }
    ensures tile_len_unchanged { length tile.new ≡ length tile.old }
{
    add_in_rows(p - 1, p - 1, line, change, tile)
}

// Adds it to the tile's text, which has the same rows, and the columns but for the last two: a change in one of these leaves it as it is.
pub fn add_to_text(p: usize, line: Line, change: &[u8; 257], text: &mut [u8])
    requires { (4 ≤ p) × (p ≤ 257) × (length text.old ≡ text_length p) × (law.number line < p - 1) }
    ensures { RowsAdded (p - 1) (p - 3) (law.along line (held change.now)) text.old text.new }
{
    add_in_rows(p - 1, p - 3, line, change, text)
}

// Adds it where there are so many rows of `width` bytes, row by row, and passes over a column that is not there.
fn add_in_rows(rows: usize, width: usize, line: Line, change: &[u8; 257], bytes: &mut [u8])
    requires { (0 < width) × (width ≤ rows) × (rows ≤ 256) × (law.number line < rows) × (length bytes.old ≡ rows * width) }
    ensures { RowsAdded rows width (law.along line (held change.now)) bytes.old bytes.new }
{
    match line {
        Line::Row(r) => add_run(width, r * width, 1, change, bytes),
        Line::Column(c) => {
            if c < width {
                add_run(rows, c, width, change, bytes);
            }
        }
    }
}

// Adds `count` bytes, the first at `start` and each `step` after the one before it. (By their places: over `iter_mut().step_by(step)`
// the proof that was tried did not close.)
fn add_run(count: usize, start: usize, step: usize, change: &[u8; 257], bytes: &mut [u8])
    requires { (count ≤ 256) × (0 < count) × (0 < step) × (step ≤ 256) × (start + step * (count - 1) < length bytes.old) × (length bytes.old ≤ 65536) }
    ensures { RunAdded start step count (held change.now) bytes.old bytes.new }
{
    for k in 0..count {
        bytes[start + step * k] ^= change[k];
    }
}
