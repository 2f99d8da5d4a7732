// The listing of a reel: a line for each tile, and a closing line. What each line says is settled byte by byte; what is left to the
// system is to write it.
#![tactic(auto)]

ghost use Rattle.std.specs.Prelude.{◌≤◌, length};
ghost use Rattle.reel.specs.Answer.{found_said, NoTile};
ghost use Rattle.reel.specs.Calls.{NextTold};
ghost use Rattle.promise.specs.Answer.{restore_said};
ghost use Rattle.listing.specs.Listing.{RestoreSays, TileListed, Closes};
ghost use Rattle.listing.specs.Reached.{Reached};

pub use lettering::line;
use line::Line;
use promise::Restored;
use reel::{Found, Tile};
use size::Refusal;

// The number that the system knows standard output by.
pub const STANDARD_OUTPUT: i32 = 1;

// What comes of restoring a tile's bytes, which stay as they are: a copy of them is restored.
fn state(tile: Tile, bytes: &[u8], copy: &mut [u8]) -> Result<Restored, Refusal>
    requires { length bytes.now ≤ length copy.old }
    ensures { RestoreSays tile bytes.now (restore_said result) }
{
    let n = bytes.len();
    copy[..n].copy_from_slice(bytes);
    restorer::restore(
        tile.kind,
        tile.p,
        tile.l,
        &mut copy[..n],
        tile.first,
        tile.second,
    )
}

// The line of the tile that stands at the start of what is left of a reel.
fn next_line(left: &[u8], tile: Tile, copy: &mut [u8]) -> Line
    requires next_told { NextTold left.now 0 (found_said (Found.Tile tile)) }
    requires in_bounds { 65536 ≤ length copy.old }
    ensures { TileListed left.now 0 result }
{
    let said = state(tile, reel::bytes(left, 0), copy);
    line::tile_line(tile.number, tile.p, tile.l, said)
}

// The closing line, where no tile stands at the start of what is left.
fn closing_line(reel: &[u8], left: &[u8], found: Found, tiles: usize) -> Line
    requires reached { Reached reel.now left.now tiles }
    requires next_told { NextTold left.now 0 (found_said found) × NoTile (found_said found) }
    ensures { Closes reel.now result }
{
    let Found::Refused(refusal, at) = found else {
        return line::end_line(tiles);
    };
    line::stopped_line(refusal, reel.len() - left.len() + at)
}

// Writes a line, and answers whether all of it was written. (A bool, as `io::write_all` gives it: it says no reason.)
fn write(line: Line) -> bool {
    io::write_all(STANDARD_OUTPUT, line.text())
}

// Lists a reel, with room for a copy of the largest tile. (The walk is the house's own, by `reel::next` and `reel::rest` on what is left:
// what stands next is in the reel's bytes, the tiles are counted for the closing line, and a line that is not written ends it.)
fn print_with(reel: &[u8], copy: &mut [u8]) -> bool
    requires { 65536 ≤ length copy.old }
{
    let mut left = reel;
    let mut tiles = 0;
    loop {
        let found = reel::next(left, 0);
        let Found::Tile(tile) = found else {
            return write(closing_line(reel, left, found, tiles));
        };
        if !write(next_line(left, tile, copy)) {
            return false;
        }
        tiles += 1;
        left = reel::rest(left, 0);
    }
}

// Lists a reel on standard output, and answers whether all of it was written. A write that fails ends the listing. (This is public, and
// takes no HostRuntime: standard output by way of one, and a `Result` of it, would ask more of its callers.)
pub fn print(reel: &[u8]) -> bool {
    let mut copy = io::large_buffer();
    print_with(reel, &mut copy)
}
