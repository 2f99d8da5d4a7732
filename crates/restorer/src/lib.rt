// Restoring a tile from a reel: its flagged lines are filled, or it is repaired if nothing is flagged. Whoever has such a tile asks here.
#![tactic(auto)]

ghost use Rattle.promise.specs.Answer.{restore_said};
ghost use Rattle.restorer.specs.Restore.{RestoreTold};

use code::{Kind, Line};
use promise::Restored;
use size::Refusal;

// Restores a tile by its flags. If just one of the two tells of a line, be it the second, that line is filled by itself. (Its parameters
// are those of fill with a flag for each line, and docs/PROMISES.md names the call by them.)
pub fn restore(
    kind: Kind,
    p: usize,
    l: usize,
    tile: &mut [u8],
    first: Option<Line>,
    second: Option<Line>,
) -> Result<Restored, Refusal>
    ensures { RestoreTold kind p l tile.old first second (restore_said result) tile.new }
{
    let Some(line) = first.or(second) else {
        let repaired = mender::repair(kind, p, l, tile)?;
        return Ok(Restored::from(repaired));
    };
    filler::fill(kind, p, l, tile, line, second.unwrap_or(line))?;
    Ok(Restored::Filled)
}
