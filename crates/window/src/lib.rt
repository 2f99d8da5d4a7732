// A window on a reel: what a reader holds of it at a time. A reel of any length is walked by windows, one behind the other, each of which
// begins where a record does (SPEC 12.9).
#![tactic(auto)]

pub mod one;

ghost use Rattle.std.specs.Prelude.{◌≡◌, ◌+◌, ◌-◌, ◌^◌, ◌≤◌, ◌<◌, length, drop};
ghost use Rattle.std.proofs.Math.Seq.{paste};
ghost use Rattle.residue.specs.Size.{Size};
ghost use Rattle.code.specs.Tile.{tile_length};
ghost use Rattle.promise.specs.Answer.{restore_said};
ghost use Rattle.window.specs.Window.{LookTold, Seeks};
ghost use Rattle.window.specs.Treat.{Within, RestoredIn};

use promise::Restored;
use reel::{Found, Tile};
use size::Refusal;
use std::ops::Range;

// What stands at a place of a window where no tile does: the end of the reel, a refusal with the offset at which the record begins, or more
// of the reel is needed to say it. (A refusal and its offset stay two fields: `LookTold` and `windows_list` take them one by one.)
#[derive(Clone, Copy)]
pub enum NoTile {
    End,
    Stopped(Refusal, usize),
    More,
}

// The tile at a place. In the last window of a reel nothing is missing; in any other, no end is the reel's, and no record is cut short but
// by the window.
#[tactic(auto, using(crate::specs::Going::cut, crate::specs::Going::stops_last, crate::specs::Going::stops))]
pub fn look(window: &[u8], at: usize, last: bool) -> Result<Tile, NoTile>
    ensures { LookTold window.now at last result }
{
    match reel::next(window, at) {
        Found::Tile(tile) => Ok(tile),
        Found::End => Err(if last { NoTile::End } else { NoTile::More }),
        Found::Refused(refusal, from) => match refusal {
            Refusal::CutShort if !last => Err(NoTile::More),
            _ => Err(NoTile::Stopped(refusal, from)),
        },
    }
}

// The places that a tile's bytes have.
fn places(tile: Tile) -> Range<usize>
    requires size { Size tile.p }
    requires bound { tile.at + tile_length tile.p < 2 ^ 64 }
    ensures start { result.start ≡ tile.at }
    ensures end { result.end ≡ tile.at + tile_length tile.p }
{
    tile.at..tile.behind()
}

// Restores a tile where it stands.
pub fn restore(window: &mut [u8], tile: Tile) -> Result<Restored, Refusal>
    requires { Within window.old tile }
    ensures { RestoredIn window.old tile (restore_said result) window.new }
{
    restorer::restore(
        tile.kind,
        tile.p,
        tile.l,
        &mut window[places(tile)],
        tile.first,
        tile.second,
    )
}

// A search: its place, the tiles that it passed, and what it came to.
#[derive(Clone, Copy)]
pub struct Sought {
    pub place: usize,
    pub tiles: usize,
    pub goal: Result<Tile, NoTile>,
}

// Looks for the first tile with the number that is wanted, if one is, from a place on, behind so many tiles. (A loop with places by hand:
// each step begins where the tile before it ends, which only that tile's header says; and `Seeks` wants the place and the count too.)
pub fn seek(window: &[u8], from: usize, last: bool, tiles: usize, wanted: Option<usize>) -> Sought
    requires { tiles ≤ 100000000000000000 }
    ensures { Seeks window.now last wanted from tiles result }
{
    let mut place = from;
    let mut passed = tiles;
    loop {
        let goal = look(window, place, last);
        match goal {
            Ok(tile) if wanted != Some(tile.number) => {
                place = tile.behind();
                passed += 1;
            }
            _ => {
                return Sought {
                    place,
                    tiles: passed,
                    goal,
                };
            }
        }
    }
}

// Moves what a window holds from a place on to its front, and answers how much that is.
pub fn move_down(window: &mut [u8], from: usize) -> usize
    ensures value { result ≡ length window.old - from }
    ensures window_after { window.new ≡ paste window.old 0 (drop from window.old) result }
{
    let start = from.min(window.len());
    window.copy_within(start.., 0);
    window.len() - start
}
