// What the command does with a whole reel: it is listed, repaired or drawn.
#![tactic(auto)]

ghost use Rattle.std.specs.Prelude.{◌≤◌, length};

use files::again::Second;
use files::input::Input;
use files::new::{NewReel, Target};
use files::progress::Clock;
use files::told::{Failure, Told, too_long};
use files::windows::{Stop, Windows};
use files::{again, asked, new, say, windows};
use picture::Form;
use picture::tally::Tally;
use show::status::Status;
use show::{Walked, status};
use window::NoTile;

// Lists a reel.
pub fn list(rt: &HostRuntime) -> Result<Status, Told> {
    let name = asked::word(rt, 0)?;
    let reel = Input::open(rt, name.bytes())?;
    shown(rt, Form::Lines, &reel, None)
}

// Repairs a reel.
pub fn repair(rt: &HostRuntime, force: bool) -> Result<Status, Told> {
    let name = asked::word(rt, 0)?;
    let new = asked::word(rt, 1)?;
    let reel = Input::open(rt, name.bytes())?;
    let target = Target {
        name: new.bytes(),
        force,
    };
    new::made(
        rt,
        Some(&reel.source),
        target,
        |new| shown(rt, Form::Lines, &reel, Some(new)),
    )
}

// Draws a reel, in signs or as a drawing.
pub fn map(rt: &HostRuntime, text: bool) -> Result<Status, Told> {
    let name = asked::word(rt, 0)?;
    let reel = Input::open(rt, name.bytes())?;
    if text {
        shown(rt, Form::Signs, &reel, None)
    } else {
        drawn(rt, &reel)
    }
}

// Makes a drawing, for which the reel is read twice: first the squares are counted. What can be read but once is kept in a file without a
// name meanwhile.
fn drawn(rt: &HostRuntime, reel: &Input) -> Result<Status, Told> {
    match again::how(rt, reel)? {
        Some(Second::SetBack(place)) => drawn_from(rt, reel, place),
        Some(Second::Other(other)) => {
            counted(rt, &other)?;
            shown(rt, Form::Squares, reel, None)
        }
        None => drawn_from(rt, &again::kept(rt, reel)?, 0),
    }
}

// Makes a drawing of what is set back to the place where it began.
fn drawn_from(rt: &HostRuntime, reel: &Input, place: u64) -> Result<Status, Told> {
    counted(rt, reel)?;
    reel.source.back(place);
    shown(rt, Form::Squares, reel, None)
}

// Counts the squares and begins the drawing. Its room is free again when that is done.
#[inline(never)]
fn counted(rt: &HostRuntime, reel: &Input) -> Result<(), Told> {
    let mut room = [0; windows::WINDOW];
    let count = hunt::count(rt, reel, &mut room)?;
    let mut page = io::buffer();
    let used = picture::begun(Form::Squares, count, &mut page);
    say::print(rt, &page[..used])
}

// What a whole reel came to: what was found on it, and where the walk stopped, if it did not come to the end.
#[derive(Clone, Copy)]
struct Found {
    tally: Tally,
    stop: Option<Stop>,
}

impl Found {
    // Shows what closes a reel in a form.
    fn close(&self, rt: &HostRuntime, form: Form, name: &[u8], page: &mut [u8]) -> Result<(), Told>
        requires { 4096 ≤ length page.old }
    {
        let tally = self.tally;
        if !show::is_near(0, tally) {
            return Err(too_long(rt, name));
        }
        let used = match self.stop {
            Some(stop) => picture::stopped(form, tally, stop.refusal, stop.offset, page),
            None => picture::ended(form, tally, page),
        };
        say::print(rt, &page[..used])
    }
}

// Shows a reel in a form that is made in one walk. The tiles are mended on the new reel, if there is one. Its room is free again when that
// is done.
#[inline(never)]
fn shown(
    rt: &HostRuntime,
    form: Form,
    reel: &Input,
    new: Option<&NewReel>,
) -> Result<Status, Told> {
    let mut room = [0; windows::WINDOW];
    let mut page = io::large_buffer();
    let clock = Clock::begun(rt, is_by_rows(form));
    let mut windows = Windows::begun(rt, reel, new, &mut room, clock)?;
    let found = walk(rt, form, &mut windows, &mut page);
    let found = windows.ended(rt, found)?;
    found.close(rt, form, reel.name, &mut page)?;
    Ok(status::of_reel(found.tally, found.stop.is_none(), new.is_some()))
}

// Does a form leave a row that is not done yet?
fn is_by_rows(form: Form) -> bool {
    matches!(form, Form::Signs)
}

// Walks along a whole reel. How many windows it has only the system knows, and a loop without an end needs the handle Wait, which no
// function here has: so the windows are counted.
fn walk(
    rt: &HostRuntime,
    form: Form,
    reel: &mut Windows,
    page: &mut [u8],
) -> Result<Found, Failure> {
    let mut tally = Tally::new();
    for _ in 0..u64::MAX {
        let walked = show_some(rt, form, reel, page, tally)?;
        tally = walked.walk.tally;
        reel.place = walked.walk.place;
        match walked.ending {
            None => {}
            Some(NoTile::More) => reel.onward(rt, tally.tiles)?,
            Some(NoTile::End) => {
                reel.finish()?;
                return Ok(Found { tally, stop: None });
            }
            Some(NoTile::Stopped(refusal, place)) => {
                let stop = Some(reel.stop(refusal, place));
                reel.finish()?;
                return Ok(Found { tally, stop });
            }
        }
    }
    Err(Failure::TooLong)
}

// Walks along the window as far as the page has room, and writes the page.
fn show_some(
    rt: &HostRuntime,
    form: Form,
    reel: &mut Windows,
    page: &mut [u8],
    tally: Tally,
) -> Result<Walked, Failure> {
    let offset = reel.offset;
    if !show::is_near(offset, tally) {
        return Err(Failure::TooLong);
    }
    let place = reel.place;
    let is_last = reel.is_last;
    let walked = show::along(form, reel.window(), place, is_last, offset, tally, page);
    let used = walked.walk.used;
    reel.clock.clear(rt);
    rt.stdout()
        .write_all(&page[..used])
        .map_err(Failure::Output)?;
    Ok(walked)
}
