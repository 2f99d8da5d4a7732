// A new reel on which one tile is changed: lines of it are filled, or it is corrected by a sheet.
use crate::{find, line_of};
use code::Line;
use files::asked::Asked;
use files::held::Word;
use files::input::Input;
use files::new::{NewReel, Target};
use files::progress::Clock;
use files::told::Told;
use files::windows::Windows;
use files::{asked, guide, new, say, windows};
use promise::Restored;
use reel::Tile;
use sheet::Fault;
use show::status;
use show::status::Status;
use words::Verb;

// What is done with the tile at a place of a window. Where it is refused, that is said.
trait Change {
    fn change(
        &self,
        rt: &HostRuntime,
        window: &mut [u8],
        at: usize,
        tile: Tile,
    ) -> Result<(), Status>;
}

// Lines of the tile that are filled: two, or one that is named twice.
#[derive(Clone, Copy)]
struct Lines {
    first: Line,
    second: Line,
}

// A sheet by which the tile is corrected, and its name.
#[derive(Clone, Copy)]
struct Sheet<'a> {
    name: &'a [u8],
    records: &'a [u8],
}

// The words that both changes have: the reel, the new reel, and the number of the tile; and whether another file gives way.
#[derive(Clone, Copy)]
struct Wanted {
    reel: Word,
    new: Word,
    number: usize,
    force: bool,
}

// Fills lines of a tile.
pub fn fill(rt: &HostRuntime, asked: Asked) -> Result<(), Status> {
    let wanted = Wanted::asked(rt, Verb::Fill, asked.force)?;
    let lines = Lines::asked(rt, asked.plain)?;
    wanted.make(rt, &lines)
}

// Corrects a tile.
pub fn correct(rt: &HostRuntime, force: bool) -> Result<(), Status> {
    let wanted = Wanted::asked(rt, Verb::Correct, force)?;
    let name = asked::word(rt, 3)?;
    by_sheet(rt, &wanted, name.bytes())
}

// Corrects it by the sheet that has a name. (In a frame of its own, of which the room comes first: so it is cleared but once.)
#[inline(never)]
fn by_sheet(rt: &HostRuntime, wanted: &Wanted, name: &[u8]) -> Result<(), Status> {
    let mut room = [0; SHEET_ROOM];
    let sheet = Sheet::read(rt, name, &mut room)?;
    wanted.make(rt, &sheet)
}

impl Wanted {
    // The words as they are asked for. What it takes to look for them is free again then.
    #[inline(never)]
    fn asked(rt: &HostRuntime, verb: Verb, force: bool) -> Result<Wanted, Told> {
        let reel = asked::word(rt, 0)?;
        let new = asked::word(rt, 1)?;
        let number = asked::number(rt, verb, 2)?;
        Ok(Wanted {
            reel,
            new,
            number,
            force,
        })
    }

    // Makes the new reel.
    fn make<C: Change>(&self, rt: &HostRuntime, change: &C) -> Result<(), Status> {
        let reel = Input::open(rt, self.reel.bytes())?;
        let number = self.number;
        let target = Target {
            name: self.new.bytes(),
            force: self.force,
        };
        new::made(
            rt,
            Some(&reel.source),
            target,
            |new| changed(rt, &reel, new, number, change),
        )
    }
}

// Looks for the tile, copies what stands before it, and changes it in its window; if that is not refused, copies the rest of the reel. (In a
// frame of its own: so no room is taken while the words are looked at.)
#[inline(never)]
fn changed<C: Change>(
    rt: &HostRuntime,
    reel: &Input,
    new: &NewReel,
    number: usize,
    change: &C,
) -> Result<(), Status> {
    let mut room = [0; windows::WINDOW];
    let clock = Clock::begun(rt, false);
    let mut windows = Windows::begun(rt, reel, Some(new), &mut room, clock)?;
    let tile = find(rt, &mut windows, number)?;
    let place = windows.place;
    change.change(rt, windows.window(), place, tile)?;
    match windows.finish() {
        Ok(()) => Ok(()),
        Err(failure) => Err(Status::from(windows.told(rt, failure))),
    }
}

// The k-th plain word as a line of a tile. If it is none, that is said.
fn line_word(rt: &HostRuntime, k: usize) -> Result<Line, Told> {
    let word = asked::word(rt, k)?;
    match words::line(word.bytes()) {
        Some(line) => Ok(line),
        None => Err(guide::wrong(rt, Some(Verb::Fill), word.bytes(), b": no line")),
    }
}

impl Lines {
    // The words that name the lines, one or two.
    fn asked(rt: &HostRuntime, plain: usize) -> Result<Lines, Told> {
        let first = line_word(rt, 3)?;
        let second = if plain < 5 { first } else { line_word(rt, 4)? };
        Ok(Lines { first, second })
    }
}

impl Change for Lines {
    // Fills the lines, and prints the tile's line. A line that the tile does not have is asked for wrongly.
    fn change(
        &self,
        rt: &HostRuntime,
        window: &mut [u8],
        at: usize,
        tile: Tile,
    ) -> Result<(), Status> {
        match window::one::fill(window, at, self.first, self.second) {
            Ok(()) => Ok(say::print_line(rt, line_of(tile, Ok(Restored::Filled)))?),
            Err(refusal) => {
                say::listed(rt, line_of(tile, Err(refusal)));
                Err(status::of_fill(refusal))
            }
        }
    }
}

// The most bytes that a sheet may have: 16,384 records.
const SHEET: usize = 131072;

// So many are read: one more tells that a sheet is too long.
const SHEET_ROOM: usize = SHEET + 1;

impl<'a> Sheet<'a> {
    // Reads a sheet. If that fails, or it is too long, that is said.
    fn read(rt: &HostRuntime, name: &'a [u8], room: &'a mut [u8]) -> Result<Sheet<'a>, Told> {
        let records = Input::open(rt, name)?.read(rt, room)?;
        if records.len() > SHEET {
            return Err(say::about(rt, name, b": longer than 131072 bytes"));
        }
        Ok(Sheet { name, records })
    }
}

impl<'a> Change for Sheet<'a> {
    // Corrects by the sheet, and prints how many records it has. A sheet that is refused is asked for wrongly.
    fn change(
        &self,
        rt: &HostRuntime,
        window: &mut [u8],
        at: usize,
        tile: Tile,
    ) -> Result<(), Status> {
        match window::one::correct(window, at, self.records) {
            Ok(count) => {
                let mut page = io::buffer();
                let used = picture::corrected(tile.number, tile.p, tile.l, count, &mut page);
                Ok(say::print(rt, &page[..used])?)
            }
            Err(Fault { refusal, at }) => {
                say::name(rt);
                say::words(rt, self.name);
                say::words(rt, b": refused ");
                say::number(rt, size::number(refusal));
                say::words(rt, b" at ");
                say::number(rt, at);
                say::words(rt, b"\n");
                Err(Status::Failed)
            }
        }
    }
}
