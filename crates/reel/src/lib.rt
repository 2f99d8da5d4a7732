// The reel: tiles on a film, one record behind the other, of three sorts that their marks tell apart. What stands at a place of it is a
// tile, the end, or a refusal. A tile's bytes, and the reel behind them, are handed back as parts of the reel that was lent. All offsets
// are those of that reel.
#![tactic(auto)]

pub mod reader;

ghost use Rattle.std.specs.Prelude.{◌≡◌, ◌+◌, ◌^◌, ◌<◌, length};
ghost use Rattle.residue.specs.Size.{Size};
ghost use Rattle.code.specs.Tile.{tile_length};
ghost use Rattle.header.specs.Header.{HeaderAt};
ghost use Rattle.reel.specs.Answer.{found_said, said_at};
ghost use Rattle.reel.specs.Calls.{HeaderTold, NextTold, BytesTold, AfterTold, RestTold};

use code::{Kind, Line};
use header::{Header, Mark};
use promise::tile_length;
use size::Refusal;

// A tile on the reel: its kind, number, size and slope, its two flags as they stand there, and where its bytes begin.
#[derive(Clone, Copy)]
pub struct Tile {
    pub kind: Kind,
    pub number: usize,
    pub p: usize,
    pub l: usize,
    pub first: Option<Line>,
    pub second: Option<Line>,
    pub at: usize,
}

impl Tile {
    // Where its bytes end, and with them its record.
    pub fn behind(self) -> usize
        requires size { Size self.p }
        requires bound { self.at + tile_length self.p < 2 ^ 64 }
        ensures { result ≡ self.at + tile_length self.p }
    {
        self.at + tile_length(self.p)
    }
}

// What stands at a place: a tile, the end, or a refusal with the offset at which the record begins.
#[derive(Clone, Copy)]
pub enum Found {
    Tile(Tile),
    End,
    Refused(Refusal, usize),
}

// What stands at a place (SPEC 7.2).
pub fn next(reel: &[u8], at: usize) -> Found
    ensures { NextTold reel.now at (found_said result) }
{
    if reel.len() <= at {
        return Found::End;
    }
    match tile_at(reel, at) {
        Ok(tile) => Found::Tile(tile),
        Err(refusal) => Found::Refused(refusal, at),
    }
}

// The tile whose record begins at a place of the reel. The refusals come in this order: 7 if not even the shortest header is whole, 6, 7 if
// the mark's header is cut, and then those of `judged`.
fn tile_at(reel: &[u8], at: usize) -> Result<Tile, Refusal>
    requires { at < length reel.now }
    ensures { NextTold reel.now at (said_at at result) }
{
    let left = reel.len() - at;
    if left < header::SHORTEST {
        return Err(Refusal::CutShort);
    }
    let Some(mark) = Mark::at(reel, at) else {
        return Err(Refusal::BadMark);
    };
    if left < mark.length() {
        return Err(Refusal::CutShort);
    }
    judged(reel, at, Header::read(reel, at, mark))
}

// The tile at a place, by its header: refused 1, 2 by the mark's kind, 4 for a flag that the record cannot carry, 7 if the tile is cut.
fn judged(reel: &[u8], at: usize, header: Header) -> Result<Tile, Refusal>
    requires { HeaderAt reel.now at header }
    ensures { HeaderTold reel.now at header (said_at at result) }
{
    let kind = header.mark.kind();
    size::judge(kind, header.p, header.l)?;
    if !header.carries() {
        return Err(Refusal::BadPlace);
    }
    let bytes = at + header.mark.length();
    if reel.len() - bytes < tile_length(header.p) {
        return Err(Refusal::CutShort);
    }
    Ok(Tile {
        kind,
        number: header.number as usize,
        p: header.p,
        l: header.l,
        first: header.first,
        second: header.second,
        at: bytes,
    })
}

// The bytes of the tile at a place; where there is none, no bytes.
pub fn bytes(reel: &[u8], at: usize) -> &[u8]
    ensures { BytesTold reel.entry at result }
{
    let Found::Tile(tile) = next(reel, at) else {
        return &reel[..0];
    };
    &reel[tile.at..tile.behind()]
}

// The place of the next mark, right behind the bytes of the tile at a place; where there is none, the place itself.
pub fn after(reel: &[u8], at: usize) -> usize
    ensures { AfterTold reel.now at result }
{
    let Found::Tile(tile) = next(reel, at) else {
        return at;
    };
    tile.behind()
}

// What is left of the reel from the next record on. A walk hands it to `next`, at place 0.
pub fn rest(reel: &[u8], at: usize) -> &[u8]
    ensures { RestTold reel.entry at result }
{
    let start = after(reel, at);
    if start <= reel.len() {
        &reel[start..]
    } else {
        &reel[..0]
    }
}
