// What is done with one tile of a window, where it stands. Where none stands, this is refused as what stands there is, and at the end with
// 7; nothing is changed then.
ghost use Rattle.promise.specs.Answer.{outcome_said, restore_said};
ghost use Rattle.sheet.specs.Answer.{corrected_said};
ghost use Rattle.window.specs.Treat.{TileTold, RestoresAt, FillsAt, CorrectsAt, ReadsAt};

use crate::places;
use code::Line;
use promise::Restored;
use reel::{Found, Tile};
use sheet::Fault;
use size::Refusal;

// The tile at a place, or why nothing can be done there.
fn tile_at(window: &[u8], at: usize) -> Result<Tile, Refusal>
    ensures { TileTold window.now at result }
{
    match reel::next(window, at) {
        Found::Tile(tile) => Ok(tile),
        Found::Refused(refusal, _) => Err(refusal),
        Found::End => Err(Refusal::CutShort),
    }
}

// Restores the tile at a place by its flags.
pub fn restore(window: &mut [u8], at: usize) -> Result<Restored, Refusal>
    ensures { RestoresAt window.old at (restore_said result) window.new }
{
    let tile = tile_at(window, at)?;
    crate::restore(window, tile)
}

// Fills lines of the tile at a place.
pub fn fill(window: &mut [u8], at: usize, a: Line, b: Line) -> Result<(), Refusal>
    ensures { FillsAt a b window.old at (outcome_said result) window.new }
{
    let tile = tile_at(window, at)?;
    filler::fill(tile.kind, tile.p, tile.l, &mut window[places(tile)], a, b)
}

// Corrects the tile at a place by a sheet.
pub fn correct(window: &mut [u8], at: usize, sheet: &[u8]) -> Result<usize, Fault>
    ensures { CorrectsAt sheet.now window.old at (corrected_said result) window.new }
{
    let tile = tile_at(window, at)?;
    sheet::correct(tile.kind, tile.p, tile.l, &mut window[places(tile)], sheet)
}

// Reads the text of the tile at a place, which has to be good, into a room of its length.
pub fn read(window: &[u8], at: usize, text: &mut [u8]) -> Result<(), Refusal>
    ensures { ReadsAt window.now at text.old (outcome_said result) text.new }
{
    let tile = tile_at(window, at)?;
    writer::read(tile.kind, tile.p, tile.l, &window[places(tile)], text)
}
