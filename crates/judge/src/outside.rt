// Whether two tiles agree outside two lines.
ghost use Rattle.std.specs.Prelude.{◌+◌, ◌-◌, ◌≤◌, length};
ghost use Rattle.code.specs.Tile.{EqualOutsideBoth};
ghost use Rattle.code.specs.Says.{Says};
ghost use Rattle.judge.specs.Outside.{TwoTiles, RowMarked, OneOf, RowsMarked};

use code::Line;

// Do two tiles agree in every cell on neither of two lines? (The two lines stand apart, as in the judge's call and its promise, JudgeTold.)
pub(crate) fn agree_outside(
    p: usize,
    scan: &[u8],
    restored: &[u8],
    first: Line,
    second: Line,
) -> bool
    requires { TwoTiles p (length scan.now) (length restored.now) }
    ensures { Says result (EqualOutsideBoth p first second scan.now restored.now) }
{
    let mut marks = [0u8; 257];
    mark_columns(p, scan, restored, first, second, &mut marks);
    (0..p - 1)
        .find(|j| marks[*j] != 0 && !is_one_of(Line::Column(*j), first, second))
        .is_none()
}

// Marks each column in which some row that is neither of the two lines differs; the others are 0. (The tiles are walked row by row, as they
// lie in memory, and all columns of a row are compared at once. A mark is a byte and no bool, which would be no plainer: what is proved of
// arrays speaks of sums, of changes and of marks by one word, `held`, and that is of bytes.)
fn mark_columns(
    p: usize,
    scan: &[u8],
    restored: &[u8],
    first: Line,
    second: Line,
    marks: &mut [u8; 257],
)
    requires { TwoTiles p (length scan.now) (length restored.now) }
    ensures { RowsMarked p scan.now restored.now first second (p - 1) marks.new }
{
    *marks = [0u8; 257];
    for i in 0..p - 1 {
        if !is_one_of(Line::Row(i), first, second) {
            mark_row(scan, restored, i * (p - 1), p - 1, marks);
        }
    }
}

// Marks the places at which a run of `count` bytes, which begins at `start` in both tiles, differs.
fn mark_row(scan: &[u8], restored: &[u8], start: usize, count: usize, marks: &mut [u8; 257])
    requires { (start + count ≤ length scan.now) × (start + count ≤ length restored.now) × (count ≤ 257) }
    ensures { RowMarked scan.now restored.now start count marks.old marks.new }
{
    for k in 0..count {
        // a mark is loaded and stored at every place, so that this compiles to wide steps
        let mark = marks[k];
        marks[k] = if scan[start + k] == restored[start + k] {
            mark
        } else {
            1
        };
    }
}

// Is the line one of two?
fn is_one_of(line: Line, first: Line, second: Line) -> bool
    ensures { Says result (OneOf line first second) }
{
    line == first || line == second
}
