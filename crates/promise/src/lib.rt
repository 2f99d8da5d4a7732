// What the tile calls promise, in specs/; what they answer; and what is judged first in each. The calls themselves stand in crates of their
// own, and users find all of them in the crate `tile`. (Kind, p and l are passed one by one, since C's calls `cf_*` have them so, and
// README.md, docs/PROMISES.md and the promises in specs/Calls.antt name the calls by them.)
#![tactic(auto)]

ghost use Rattle.std.specs.Prelude.{◌≡◌};
ghost use Rattle.residue.specs.Size.{Size};
ghost use Rattle.code.specs.Says.{Says};
ghost use Rattle.code.specs.Tile.{tile_length, text_length};
ghost use Rattle.size.specs.Answer.{judgement_said};
ghost use Rattle.promise.specs.Calls.{Admitted, Has};

use code::{Kind, Line};
use size::Refusal;
use walk::index::number;

// What repair finds, and puts right: nothing was hurt; one byte, by its row and its column; or two and more of a column or of a row.
// Inspect and recover answer what repair would.
#[derive(Clone, Copy, PartialEq, Eq)]
pub enum Repaired {
    Clean,
    Cell(usize, usize),
    Column(usize),
    Row(usize),
}

// What comes of a tile that is repaired where it carries no flag, and filled where it carries one.
#[derive(Clone, Copy, PartialEq, Eq)]
pub enum Restored {
    Repaired(Repaired),
    Filled,
}

impl From<Repaired> for Restored {
    ghost use Rattle.promise.specs.declared.Restored.{Restored};

    ghost from_gives = { λ repaired restored. restored ≡ Restored.Repaired repaired };

    fn from(repaired: Repaired) -> Restored {
        Restored::Repaired(repaired)
    }
}

// How many bytes a tile of size p has ..
pub fn tile_length(p: usize) -> usize
    requires { Size p }
    ensures { result ≡ tile_length p }
{
    (p - 1) * (p - 1)
}

// .. and how many of them are its text.
pub fn text_length(p: usize) -> usize
    requires { Size p }
    ensures { result ≡ text_length p }
{
    (p - 1) * (p - 3)
}

// Judges the size, the kind's slope and the tile's length: refusals 1, 2 and 3, in that order.
pub fn judge_tile(kind: Kind, p: usize, l: usize, cells: usize) -> Result<(), Refusal>
    ensures { Admitted kind p l (cells ≡ tile_length p) (judgement_said result) }
{
    size::judge(kind, p, l)?;
    if cells == tile_length(p) {
        Ok(())
    } else {
        Err(Refusal::BadLength)
    }
}

// Judges the text's length too.
pub fn judge_text(
    kind: Kind,
    p: usize,
    l: usize,
    cells: usize,
    letters: usize,
) -> Result<(), Refusal>
    ensures { Admitted kind p l ((cells ≡ tile_length p) × (letters ≡ text_length p)) (judgement_said result) }
{
    judge_tile(kind, p, l, cells)?;
    if letters == text_length(p) {
        Ok(())
    } else {
        Err(Refusal::BadLength)
    }
}

// Does a tile of size p have the line?
pub fn has(p: usize, line: Line) -> bool
    ensures { Says result (Has p line) }
{
    2 <= p && number(line) <= p - 2
}

// Does it have both?
pub fn has_both(p: usize, first: Line, second: Line) -> bool
    ensures { Says result (Has p first × Has p second) }
{
    has(p, first) && has(p, second)
}
