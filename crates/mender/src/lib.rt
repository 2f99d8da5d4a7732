// One hurt line of a tile: repaired, named, or put right while the text is read. It is looked for in one place, `search::hurt`, and what is
// said of it is said in one place too. (The array of the change is lent beside the answer that tells of its line: no array is handed up,
// for the stack's sake, as docs/DECISIONS.md says under "What each call holds on the stack".)
#![tactic(auto)]

ghost use Rattle.std.specs.Prelude.{◌≤◌, Ok};
ghost use Rattle.code.specs.Held.{held};
ghost use Rattle.promise.specs.Answer.{repair_said, repaired_said};
ghost use Rattle.promise.specs.Calls.{RepairTold, InspectTold, RecoverTold};
ghost use Rattle.mender.specs.Called.{Called};
ghost use Rattle.mender.specs.Mended.{Told};

use cells::change::{add_line, add_to_text};
use cells::text;
use code::lattice::Lattice;
use code::{Kind, Line};
use promise::{Repaired, judge_text, judge_tile};
use search::hurt;
use search::hurt::next_changed;
use size::Refusal;

// Repairs one hurt column, or one hurt row, and names what was hurt.
pub fn repair(kind: Kind, p: usize, l: usize, tile: &mut [u8]) -> Result<Repaired, Refusal>
    ensures { RepairTold kind p l tile.old (repair_said result) tile.new }
{
    judge_tile(kind, p, l, tile.len())?;
    let mut change = [0u8; 257];
    let hurt = hurt::find(kind, Lattice { p, l }, tile, &mut change)?;
    if let Some(line) = hurt {
        add_line(p, line, &change, tile);
    }
    Ok(say(p, hurt, &change))
}

// Names what is hurt in a scan, as repair would, and leaves it so.
pub fn inspect(kind: Kind, p: usize, l: usize, scan: &[u8]) -> Result<Repaired, Refusal>
    ensures { InspectTold kind p l scan.now (repair_said result) }
{
    judge_tile(kind, p, l, scan.len())?;
    let mut change = [0u8; 257];
    let found = hurt::find(kind, Lattice { p, l }, scan, &mut change)?;
    Ok(say(p, found, &change))
}

// Reads the text of the tile that repair would make of a scan, leaves the scan as it is, and names what is hurt. The change goes to the
// text alone; where nothing can be mended the text stays.
pub fn recover(
    kind: Kind,
    p: usize,
    l: usize,
    scan: &[u8],
    text: &mut [u8],
) -> Result<Repaired, Refusal>
    ensures { RecoverTold kind p l scan.now text.old (repair_said result) text.new }
{
    judge_text(kind, p, l, scan.len(), text.len())?;
    let mut change = [0u8; 257];
    let hurt = hurt::find(kind, Lattice { p, l }, scan, &mut change)?;
    text::take(p, scan, text);
    if let Some(line) = hurt {
        add_to_text(p, line, &change, text);
    }
    Ok(say(p, hurt, &change))
}

// What is said of what was found.
fn say(p: usize, hurt: Option<Line>, change: &[u8; 257]) -> Repaired
    requires { (2 ≤ p) × (p ≤ 257) }
    ensures { Told p (held change.now) (Ok hurt) (repaired_said result) }
{
    match hurt {
        None => Repaired::Clean,
        Some(line) => name(p, line, change),
    }
}

// The name of a change in a line: where it has one byte the cell of this byte, where it has more the line. A change of no byte is `Clean`.
fn name(p: usize, line: Line, change: &[u8; 257]) -> Repaired
    requires { (2 ≤ p) × (p ≤ 257) }
    ensures { Called p line (held change.now) (repaired_said result) }
{
    let Some(k) = next_changed(change, 0, p - 1) else {
        return Repaired::Clean;
    };
    if next_changed(change, k + 1, p - 1).is_some() {
        return match line {
            Line::Row(r) => Repaired::Row(r),
            Line::Column(c) => Repaired::Column(c),
        };
    }
    match line {
        Line::Row(r) => Repaired::Cell(r, k),
        Line::Column(c) => Repaired::Cell(k, c),
    }
}
