// The text of a tile, laid in and taken out.
ghost use Rattle.std.specs.Prelude.{◌≡◌, ◌+◌, ◌≤◌, length};
ghost use Rattle.code.specs.Tile.{text_of};
ghost use Rattle.cells.specs.Text.{Lengths, Copied, Laid};

// Lays the text into its columns.
pub fn lay(p: usize, text: &[u8], tile: &mut [u8])
    requires { Lengths p (length tile.old) (length text.now) }
    ensures { Laid p text.now tile.old tile.new }
{
    for i in 0..p - 1 {
        copy(p - 3, text, i * (p - 3), tile, i * (p - 1));
    }
}

// Takes the text out of its columns.
pub fn take(p: usize, tile: &[u8], text: &mut [u8])
    requires { Lengths p (length tile.now) (length text.old) }
    ensures { text.new ≡ text_of p tile.now }
{
    for i in 0..p - 1 {
        copy(p - 3, tile, i * (p - 1), text, i * (p - 3));
    }
}

// Copies `count` bytes, from `start` on, to `begin`. They go by way of a piece that is nobody else's: so the compiler knows that no byte is
// read after it was written, moves them all at once, and makes no such piece. (It is said once for both ways. The two above stay two, since
// they leave different bytes as they were: one function for both would be no plainer.)
fn copy(count: usize, from: &[u8], start: usize, to: &mut [u8], begin: usize)
    requires { (count ≤ 256) × (start + count ≤ length from.now) × (begin + count ≤ length to.old) }
    ensures { Copied from.now start to.old begin count to.new }
{
    let mut piece = [0u8; 256];
    copy_run(count, from, start, &mut piece, 0);
    copy_run(count, &piece, 0, to, begin);
}

// Copies them.
fn copy_run(count: usize, from: &[u8], start: usize, to: &mut [u8], begin: usize)
    requires { (start + count ≤ length from.now) × (begin + count ≤ length to.old) }
    ensures { Copied from.now start to.old begin count to.new }
{
    to[begin..begin + count].copy_from_slice(&from[start..start + count]);
}
