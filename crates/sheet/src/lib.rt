// The correction sheet: records that each name a place in a tile's text, what stood there and what is to stand there. The tile
// need not be sound: what is made is the change that the sheet asks for, the same in every tile.
#![tactic(auto)]

ghost use Rattle.std.specs.Prelude.{◌≡◌, ◌+◌, ◌≤◌, ◌<◌, length};
ghost use Rattle.code.specs.Tile.{tile_length};
ghost use Rattle.code.specs.Says.{Says};
ghost use Rattle.sheet.specs.Sheet.{records, SoundBelow};
ghost use Rattle.sheet.specs.Calls.{Judged, Corrects, CorrectTold};
ghost use Rattle.sheet.specs.Answer.{corrected_said};
ghost use Rattle.sheet.specs.Judge.{Read};
ghost use Rattle.sheet.specs.Make.{ByteAdded};

use cells::place;
use chain::checks;
use code::lattice::Lattice;
use code::{Kind, Line};
use promise::judge_tile;
use size::Refusal;
use walk::index::through;

// Why a sheet is refused, and the offset at which the faulty record begins.
#[derive(Clone, Copy, PartialEq, Eq)]
pub struct Fault {
    pub refusal: Refusal,
    pub at: usize,
}

// What is refused before a record is looked at has offset 0.
impl From<Refusal> for Fault {
    ghost from_gives = { λ refusal fault. fault ≡ record { refusal = refusal; at = 0 } };

    fn from(refusal: Refusal) -> Fault {
        Fault { refusal, at: 0 }
    }
}

// The mark that each record begins with, as a number of two bytes.
const MARK: usize = 0xC33C;

// How many bytes a record has.
const RECORD: usize = 8;

// What a record says.
#[derive(Clone, Copy)]
struct Correction {
    row: usize,
    column: usize,
    was: u8,
    is: u8,
}

// The k-th record, taken apart, if it has the mark. Here alone the code knows how a record is laid out. (By its number: the promises in
// specs/Sheet.antt name a record so, and a fault tells the offset that the number gives.)
fn nth(sheet: &[u8], k: usize) -> Option<Correction>
    requires { k < records sheet.now }
    ensures { Read sheet.now k result }
{
    let at = RECORD * k;
    if record::number(sheet[at], sheet[at + 1]) != MARK {
        return None;
    }
    Some(Correction {
        row: record::number(sheet[at + 2], sheet[at + 3]),
        column: record::number(sheet[at + 4], sheet[at + 5]),
        was: sheet[at + 6],
        is: sheet[at + 7],
    })
}

// Does the text of a tile of size p have the place?
fn has_place(p: usize, row: usize, column: usize) -> bool
    ensures { Says result ((row + 2 ≤ p) × (column + 4 ≤ p)) }
{
    4 <= p && row <= p - 2 && column <= p - 4
}

// Judges the sheet as a whole, and counts its records: refusal 7 for its length, then 6 or 4 for the first record that has a fault
// (SPEC 6.3).
fn judge(p: usize, sheet: &[u8]) -> Result<usize, Fault>
    ensures { Judged p sheet.now (corrected_said result) }
{
    if sheet.len() % RECORD != 0 {
        return Err(Fault::from(Refusal::CutShort));
    }
    let count = sheet.len() / RECORD;
    for k in 0..count {
        let at = RECORD * k;
        let Some(next) = nth(sheet, k) else {
            return Err(Fault {
                refusal: Refusal::BadMark,
                at,
            });
        };
        if !has_place(p, next.row, next.column) {
            return Err(Fault {
                refusal: Refusal::BadPlace,
                at,
            });
        }
    }
    Ok(count)
}

// Makes the corrections of a sheet that was judged sound. Each record's difference goes into its cell, and into the sum of its line
// of either slope; the check columns then settle those sums. What a cell holds does not matter: it may be damaged.
fn make(lattice: Lattice, sheet: &[u8], tile: &mut [u8])
    requires tile_len { length tile.old ≡ tile_length lattice.p }
    requires sound_below { SoundBelow lattice.p sheet.now (records sheet.now) }
    ensures { Corrects lattice.p lattice.l sheet.now tile.old tile.new }
{
    let Lattice { p, l } = lattice;
    let mut a = [0u8; 257];
    let mut b = [0u8; 257];
    for k in 0..sheet.len() / RECORD {
        let next = nth(sheet, k).unwrap();
        let at = place(p, next.row, next.column);
        let difference = next.was ^ next.is;
        tile[at] ^= difference;
        add_byte(p, 1, next.row, next.column, difference, &mut a);
        add_byte(p, l, next.row, next.column, difference, &mut b);
    }
    checks::settle(lattice, &a, &b, tile);
}

// Adds a byte to the sum of the slope-s line through the cell in row i and column j. (Six parameters: a struct of them would be made anew
// for each of its two calls.)
fn add_byte(p: usize, s: usize, i: usize, j: usize, x: u8, sums: &mut [u8; 257])
    requires { (i < p) × (j < p) × (s < p) × (p ≤ 257) }
    ensures { ByteAdded p s i j x sums.old sums.new }
{
    let t = through(p, s, Line::Row(i), j);
    sums[t] ^= x;
}

// Corrects a tile, sound or damaged, by a sheet, which is judged as a whole while nothing is changed yet; answers how many records it has.
pub fn correct(
    kind: Kind,
    p: usize,
    l: usize,
    tile: &mut [u8],
    sheet: &[u8],
) -> Result<usize, Fault>
    ensures { CorrectTold kind p l tile.old sheet.now (corrected_said result) tile.new }
{
    judge_tile(kind, p, l, tile.len())?;
    let records = judge(p, sheet)?;
    make(Lattice { p, l }, sheet, tile);
    Ok(records)
}
