// The search for a tile along a reel: the first that has a number.
#![tactic(auto)]

ghost use Rattle.std.specs.Prelude.{◌≤◌, IfOk};

use files::input::Input;
use files::progress::Clock;
use files::told::{Failure, Told, too_long};
use files::windows::{Stop, Windows};
use reel::Tile;
use window::NoTile;

// A walk that passed so many tiles, and what it came to: the tile that was wanted, the reel's end, or where it stopped.
#[derive(Clone, Copy)]
struct Walk {
    tiles: usize,
    goal: Result<Tile, Option<Stop>>,
}

// What a search without a find came to: so many tiles, up to the reel's end or to where it stopped.
#[derive(Clone, Copy)]
pub struct Passed {
    pub tiles: usize,
    pub stop: Option<Stop>,
}

// Looks for the first tile with a number, and answers it, or what was passed where there is none. The walk along the reel stays where that
// tile stands. If it cannot go on, it is told why.
pub fn search(
    rt: &HostRuntime,
    reel: &mut Windows,
    number: usize,
) -> Result<Result<Tile, Passed>, Told> {
    let walk = along(rt, reel, Some(number));
    let Walk { tiles, goal } = reel.ended(rt, walk)?;
    Ok(goal.map_err(|stop| Passed { tiles, stop }))
}

// Goes from window to window. How many there are only the system knows, and a loop without an end needs the handle Wait, which no function
// here has: so they are counted.
fn along(rt: &HostRuntime, reel: &mut Windows, wanted: Option<usize>) -> Result<Walk, Failure> {
    let mut tiles = 0;
    for _ in 0..u64::MAX {
        if tiles > show::FAR {
            return Err(Failure::TooLong);
        }
        let place = reel.place;
        let is_last = reel.is_last;
        let sought = window::seek(reel.window(), place, is_last, tiles, wanted);
        tiles = sought.tiles;
        reel.place = sought.place;
        let goal = match sought.goal {
            Ok(tile) => Ok(tile),
            Err(NoTile::End) => Err(None),
            Err(NoTile::Stopped(refusal, at)) => Err(Some(reel.stop(refusal, at))),
            Err(NoTile::More) => {
                reel.onward(rt, tiles)?;
                continue;
            }
        };
        return Ok(Walk { tiles, goal });
    }
    Err(Failure::TooLong)
}

// How many squares the drawing of a reel has: one for each tile, and one where the walk stopped. If they cannot be counted, it is told why.
pub fn count(rt: &HostRuntime, reel: &Input, room: &mut [u8]) -> Result<usize, Told>
    ensures { IfOk result (λ squares. squares ≤ 100000000000000000) }
{
    let clock = Clock::begun(rt, false);
    let mut windows = Windows::begun(rt, reel, None, room, clock)?;
    let walk = along(rt, &mut windows, None);
    let squares = windows.ended(rt, walk)?.squares();
    if squares > show::FAR {
        return Err(too_long(rt, reel.name));
    }
    Ok(squares)
}

impl Walk {
    // A square for each tile, and one where the walk stopped.
    fn squares(&self) -> usize {
        let stops = if matches!(self.goal, Err(Some(_))) {
            1
        } else {
            0
        };
        self.tiles.saturating_add(stops)
    }
}
