// Writing a text as a tile, and reading it.
#![tactic(auto)]

ghost use Rattle.promise.specs.Answer.{outcome_said};
ghost use Rattle.promise.specs.Calls.{WriteTold, ReadTold};

use cells::text;
use chain::checks;
use code::Kind;
use code::lattice::Lattice;
use promise::judge_text;
use size::Refusal;
use walk::sums::{both_sums, is_good};

// Writes the good tile that has the text: lays the text into its columns and fills the two check columns.
pub fn write(kind: Kind, p: usize, l: usize, text: &[u8], tile: &mut [u8]) -> Result<(), Refusal>
    ensures { WriteTold kind p l text.now tile.old (outcome_said result) tile.new }
{
    judge_text(kind, p, l, tile.len(), text.len())?;
    text::lay(p, text, tile);
    let mut a = [0u8; 257];
    let mut b = [0u8; 257];
    both_sums(p, l, tile, &mut a, &mut b);
    checks::settle(Lattice { p, l }, &a, &b, tile);
    Ok(())
}

// Reads a good tile's text.
pub fn read(kind: Kind, p: usize, l: usize, tile: &[u8], text: &mut [u8]) -> Result<(), Refusal>
    ensures { ReadTold kind p l tile.now text.old (outcome_said result) text.new }
{
    judge_text(kind, p, l, tile.len(), text.len())?;
    if !is_good(p, l, tile) {
        return Err(Refusal::Damaged);
    }
    text::take(p, tile, text);
    Ok(())
}
