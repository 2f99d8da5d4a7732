// What the command does with one tile of a reel, the first that has a number: it is read, filled or corrected. Where that is not done, it
// is told why, and the answer is the exit status.
#![tactic(auto)]

mod change;

pub use change::{correct, fill};
use files::input::Input;
use files::progress::Clock;
use files::windows::Windows;
use files::{asked, measure, say, windows};
use hunt::Passed;
use lettering::line;
use promise::{Repaired, Restored};
use reel::Tile;
use show::status::Status;
use size::Refusal;
use words::Verb;

// Reads the text of a tile.
pub fn read(rt: &HostRuntime) -> Result<(), Status> {
    let name = asked::word(rt, 0)?;
    let number = asked::number(rt, Verb::Read, 1)?;
    let reel = Input::open(rt, name.bytes())?;
    read_from(rt, &reel, number)
}

// The same of a reel that is open. (In a frame of its own, of which the room comes first: so it is cleared but once.)
#[inline(never)]
fn read_from(rt: &HostRuntime, reel: &Input, number: usize) -> Result<(), Status> {
    let mut room = [0; windows::WINDOW];
    let clock = Clock::begun(rt, false);
    let mut windows = Windows::begun(rt, reel, None, &mut room, clock)?;
    let tile = find(rt, &mut windows, number)?;
    restore(rt, &mut windows, tile)?;
    print_text(rt, &mut windows, tile)
}

// Looks for the tile along a reel. If there is none, it is said what the walk came to.
fn find(rt: &HostRuntime, reel: &mut Windows, number: usize) -> Result<Tile, Status> {
    match hunt::search(rt, reel, number)? {
        Ok(tile) => Ok(tile),
        Err(passed) => {
            say::listed(rt, closing_line(passed));
            say::name(rt);
            say::words(rt, reel.name());
            say::words(rt, b": no tile ");
            say::number(rt, number);
            say::words(rt, b"\n");
            Err(Status::Wrong)
        }
    }
}

// The line that closes the listing of a reel.
fn closing_line(passed: Passed) -> line::Line {
    match passed.stop {
        Some(stop) => line::stopped_line(stop.refusal, stop.offset),
        None => line::end_line(passed.tiles),
    }
}

// The line of a tile in a listing.
fn line_of(tile: Tile, state: Result<Restored, Refusal>) -> line::Line {
    line::tile_line(tile.number, tile.p, tile.l, state)
}

// Restores the tile where it stands. What was hurt is said.
fn restore(rt: &HostRuntime, reel: &mut Windows, tile: Tile) -> Result<(), Status> {
    let place = reel.place;
    let state = window::one::restore(reel.window(), place);
    if state != Ok(Restored::Repaired(Repaired::Clean)) {
        say::listed(rt, line_of(tile, state));
    }
    match state {
        Ok(_) => Ok(()),
        Err(_) => Err(Status::Wrong),
    }
}

// Prints the text of a good tile. That its size is one, and so how long its text is at most, the search does not promise.
fn print_text(rt: &HostRuntime, reel: &mut Windows, tile: Tile) -> Result<(), Status> {
    let mut text = io::large_buffer();
    let n = say::at_most(measure::text(tile.p), &text);
    let place = reel.place;
    match window::one::read(reel.window(), place, &mut text[..n]) {
        Ok(()) => Ok(say::print(rt, &text[..n])?),
        Err(_) => Err(Status::Wrong),
    }
}
