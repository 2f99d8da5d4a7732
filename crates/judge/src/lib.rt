// Judging a tile that somebody restored from a scan.
#![tactic(auto)]

mod outside;

ghost use Rattle.std.specs.Prelude.{◌≡◌};
ghost use Rattle.code.specs.Tile.{tile_length};
ghost use Rattle.code.specs.declared.Kind.TheVariants.{New};
ghost use Rattle.size.specs.Answer.{judgement_said};
ghost use Rattle.promise.specs.Answer.{outcome_said};
ghost use Rattle.promise.specs.Calls.{Admitted, JudgeTold};

use crate::outside::agree_outside;
use code::{Kind, Line};
use promise::{has_both, judge_tile};
use size::Refusal;
use walk::sums::is_good;

// Judges the size, the slope and the lengths of both tiles: refusals 1, 2 and 3, in that order. The tiles are taken for new ones.
fn judge_lengths(p: usize, l: usize, scan: usize, restored: usize) -> Result<(), Refusal>
    ensures { Admitted New p l ((scan ≡ tile_length p) × (restored ≡ tile_length p)) (judgement_said result) }
{
    judge_tile(Kind::New, p, l, scan)?;
    if restored == scan {
        Ok(())
    } else {
        Err(Refusal::BadLength)
    }
}

// Accepts a restored tile that is good and differs from the scan on the named lines alone. To name one line, name it twice. (Its parameters
// are those of `cf_judge`, and docs/PROMISES.md names the call by them.)
pub fn judge(
    p: usize,
    l: usize,
    scan: &[u8],
    restored: &[u8],
    first: Line,
    second: Line,
) -> Result<(), Refusal>
    ensures { JudgeTold p l scan.now restored.now first second (outcome_said result) }
{
    judge_lengths(p, l, scan.len(), restored.len())?;
    if !has_both(p, first, second) {
        return Err(Refusal::BadPlace);
    }
    if !is_good(p, l, restored) {
        return Err(Refusal::NotGood);
    }
    if !agree_outside(p, scan, restored, first, second) {
        return Err(Refusal::DiffersElsewhere);
    }
    Ok(())
}
