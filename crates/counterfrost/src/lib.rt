// The face for C and Rust, as include/counterfrost.h declares it. Each call wraps a proved one: it answers by a word, and promises what
// that one does. None asks anything of its input. (That header and the promises in specs/Calls.antt have each number and each place to
// write to as a parameter of its own, so the calls do, however many.)
#![tactic(auto)]

ghost use Rattle.std.specs.Prelude.{◌≡◌};
ghost use Rattle.size.specs.Answer.{house_said};
ghost use Rattle.promise.specs.Answer.{repair_said};
ghost use Rattle.word.specs.Word as spec;
ghost use Rattle.word.specs.Fits.{Fits};
ghost use Rattle.word.specs.Version.{version};
ghost use Rattle.counterfrost.specs.Calls.{HouseWorded, TakesWorded, WriteWorded, ReadWorded, RepairWorded, InspectWorded, RecoverWorded, FillWorded, JudgeWorded, CorrectWorded, NextWorded, LayWorded};

use header::Header;
use promise::Repaired;
use reel::Found;
use size::Refusal;

// The house slope of the size p.
#[unsafe(no_mangle)]
pub extern "C" fn cf_house_slope(p: usize) -> u64
    ensures { HouseWorded p result }
{
    of_house(size::house_slope(p))
}

// Is p a size at which the kind takes the slope l? If not, why not.
#[unsafe(no_mangle)]
pub extern "C" fn cf_takes(kind: usize, p: usize, l: usize) -> u64
    ensures { TakesWorded kind p l result }
{
    word::outcome(size::judge(word::kind(kind), p, l))
}

// Writes the good tile that has the text.
#[unsafe(no_mangle)]
pub extern "C" fn cf_write(kind: usize, p: usize, l: usize, text: &[u8], tile: &mut [u8]) -> u64
    ensures { WriteWorded kind p l text.now tile.old result tile.new }
{
    word::outcome(tile::write(word::kind(kind), p, l, text, tile))
}

// Reads the text out of a good tile.
#[unsafe(no_mangle)]
pub extern "C" fn cf_read(kind: usize, p: usize, l: usize, tile: &[u8], text: &mut [u8]) -> u64
    ensures { ReadWorded kind p l tile.now text.old result text.new }
{
    word::outcome(tile::read(word::kind(kind), p, l, tile, text))
}

// Repairs one hurt column, or one hurt row, and names what was hurt.
#[unsafe(no_mangle)]
pub extern "C" fn cf_repair(kind: usize, p: usize, l: usize, tile: &mut [u8]) -> u64
    ensures { RepairWorded kind p l tile.old result tile.new }
{
    of_repair(tile::repair(word::kind(kind), p, l, tile))
}

// Names what is hurt in a scan, and leaves it so.
#[unsafe(no_mangle)]
pub extern "C" fn cf_inspect(kind: usize, p: usize, l: usize, scan: &[u8]) -> u64
    ensures { InspectWorded kind p l scan.now result }
{
    of_repair(tile::inspect(word::kind(kind), p, l, scan))
}

// Reads the text of the repaired tile, leaves the scan as it is, and names what is hurt.
#[unsafe(no_mangle)]
pub extern "C" fn cf_recover(kind: usize, p: usize, l: usize, scan: &[u8], text: &mut [u8]) -> u64
    ensures { RecoverWorded kind p l scan.now text.old result text.new }
{
    of_repair(tile::recover(word::kind(kind), p, l, scan, text))
}

// Fills one or two flagged lines, each named by a number.
#[unsafe(no_mangle)]
pub extern "C" fn cf_fill(
    kind: usize,
    p: usize,
    l: usize,
    tile: &mut [u8],
    first: usize,
    second: usize,
) -> u64
    ensures { FillWorded kind p l tile.old first second result tile.new }
{
    let first = flag::line(first);
    let second = flag::line(second);
    word::outcome(tile::fill(word::kind(kind), p, l, tile, first, second))
}

// Judges a tile that somebody restored from a scan, in one or two lines.
#[unsafe(no_mangle)]
pub extern "C" fn cf_judge(
    p: usize,
    l: usize,
    scan: &[u8],
    restored: &[u8],
    first: usize,
    second: usize,
) -> u64
    ensures { JudgeWorded p l scan.now restored.now first second result }
{
    let first = flag::line(first);
    let second = flag::line(second);
    word::outcome(tile::judge(p, l, scan, restored, first, second))
}

// Corrects a tile by a sheet.
#[unsafe(no_mangle)]
pub extern "C" fn cf_correct(
    kind: usize,
    p: usize,
    l: usize,
    tile: &mut [u8],
    sheet: &[u8],
    count_or_offset: &mut u64,
) -> u64
    ensures { CorrectWorded kind p l tile.old sheet.now result tile.new count_or_offset.new }
{
    let (answer, number) = match sheet::correct(word::kind(kind), p, l, tile, sheet) {
        Ok(count) => (word::done(), count),
        Err(fault) => (word::refused(fault.refusal), fault.at),
    };
    *count_or_offset = number as u64;
    answer
}

// What stands at a place of a reel. Every number is set: where there is no value, the flags to none and the others to 0.
#[unsafe(no_mangle)]
pub extern "C" fn cf_next(
    reel: &[u8],
    at: usize,
    kind: &mut u64,
    number: &mut u64,
    p: &mut u64,
    l: &mut u64,
    first: &mut u64,
    second: &mut u64,
    offset: &mut u64,
) -> u64
    ensures { NextWorded reel.now at result kind.new number.new p.new l.new first.new second.new offset.new }
{
    *kind = 0;
    *number = 0;
    *p = 0;
    *l = 0;
    *first = flag::NONE as u64;
    *second = flag::NONE as u64;
    *offset = 0;
    match reel::next(reel, at) {
        Found::Tile(tile) => {
            *kind = word::kind_number(tile.kind);
            *number = tile.number as u64;
            *p = tile.p as u64;
            *l = tile.l as u64;
            *first = flag::number(tile.first) as u64;
            *second = flag::number(tile.second) as u64;
            *offset = tile.at as u64;
            word::done()
        }
        Found::End => word::end(),
        Found::Refused(refusal, from) => {
            *offset = from as u64;
            word::refused(refusal)
        }
    }
}

// Lays the record of a tile, with the flags as numbers.
#[unsafe(no_mangle)]
pub extern "C" fn cf_lay(
    which: usize,
    p: usize,
    l: usize,
    number: u32,
    first: usize,
    second: usize,
    tile: &[u8],
    room: &mut [u8],
    length: &mut u64,
) -> u64
    ensures { LayWorded which p l number first second tile.now room.old result room.new «length».new }
{
    let header = Header {
        mark: word::mark(which),
        p,
        l,
        number,
        first: flag::read(first),
        second: flag::read(second),
    };
    let (answer, count) = match printer::lay(header, tile, room) {
        Ok(count) => (word::done(), count),
        Err(refusal) => (word::refused(refusal), 0),
    };
    *length = count as u64;
    answer
}

// The version of this library.
#[unsafe(no_mangle)]
pub extern "C" fn cf_version() -> u64
    ensures { result ≡ version }
{
    word::version()
}

// What the house slope's call answers.
fn of_house(answer: Result<usize, Refusal>) -> u64
    requires { Fits (spec.size_answer (house_said answer)) }
    ensures { result ≡ spec.word (spec.size_answer (house_said answer)) }
{
    match answer {
        Ok(l) => word::word(word::DONE, l as u16, 0),
        Err(refusal) => word::refused(refusal),
    }
}

// What repair answers, and inspect, and recover.
fn of_repair(answer: Result<Repaired, Refusal>) -> u64
    requires { Fits (spec.tile_answer (repair_said answer)) }
    ensures { result ≡ spec.word (spec.tile_answer (repair_said answer)) }
{
    match answer {
        Ok(Repaired::Clean) => word::done(),
        Ok(Repaired::Cell(r, c)) => word::word(word::CELL, r as u16, c as u16),
        Ok(Repaired::Column(c)) => word::word(word::COLUMN, c as u16, 0),
        Ok(Repaired::Row(r)) => word::word(word::ROW, r as u16, 0),
        Err(refusal) => word::refused(refusal),
    }
}
