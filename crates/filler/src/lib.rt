// Filling one or two flagged lines of a tile.
#![tactic(auto)]

ghost use Rattle.promise.specs.Answer.{outcome_said};
ghost use Rattle.promise.specs.Calls.{FillTold};

use cells::change::add_line;
use chain::filling;
use code::lattice::Lattice;
use code::{Kind, Line};
use promise::{has_both, judge_tile};
use size::Refusal;

// Fills one or two flagged lines, whatever bytes they hold. One line is named twice. (Its parameters are those of `cf_fill`, and
// docs/PROMISES.md names the call by them.)
pub fn fill(
    kind: Kind,
    p: usize,
    l: usize,
    tile: &mut [u8],
    first: Line,
    second: Line,
) -> Result<(), Refusal>
    ensures { FillTold kind p l tile.old first second (outcome_said result) tile.new }
{
    judge_tile(kind, p, l, tile.len())?;
    if !has_both(p, first, second) {
        return Err(Refusal::BadPlace);
    }
    let mut x = [0u8; 257];
    let mut y = [0u8; 257];
    filling::solve(kind, Lattice { p, l }, tile, first, second, &mut x, &mut y)?;
    add_line(p, first, &x, tile);
    add_line(p, second, &y, tile);
    Ok(())
}
