// Puts the record of a tile together, as the reel reads it.
#![tactic(auto)]

ghost use Rattle.printer.specs.Lay.{laid_said, LayTold};

use header::Header;
use promise::judge_tile;
use size::Refusal;

// Lays the record of a tile behind its header into the first bytes of a room, and answers how many they are. The refusals come in this
// order: 1, 2 by the mark's kind, 3 for the tile, 4 for a flag that the record cannot carry, 9 if the room is too small.
pub fn lay(header: Header, tile: &[u8], room: &mut [u8]) -> Result<usize, Refusal>
    ensures { LayTold header tile.now room.old (laid_said result) room.new }
{
    let mark = header.mark;
    judge_tile(mark.kind(), header.p, header.l, tile.len())?;
    if !header.carries() {
        return Err(Refusal::BadPlace);
    }
    let start = mark.length();
    let end = start + tile.len();
    if room.len() < end {
        return Err(Refusal::TooSmall);
    }
    let bytes = header.bytes();
    room[..start].copy_from_slice(&bytes[..start]);
    room[start..end].copy_from_slice(tile);
    Ok(end)
}
