// What is shown of a tile and of a reel: as lines of a listing, as squares of a drawing, or as signs for a terminal. Nothing is written
// here: it is put on a page. Each function asks for room for the most that it puts, since nothing is refused for want of room.
#![tactic(auto)]

pub mod drawing;
pub mod signs;
pub mod tally;

ghost use Rattle.std.specs.Prelude.{◌≤◌, length};
ghost use Rattle.size.specs.Refusal.{number_of};
ghost use Rattle.promise.specs.Answer.{restore_said};
ghost use Rattle.page.specs.Page.{Puts, Room, PutOn};
ghost use Rattle.picture.specs.Picture.{tile_shown, begun_shown, ended_shown, stopped_shown, corrected_line};
ghost use Rattle.picture.specs.Tally.{Below, most_squares};

use lettering::line;
use page::Page;
use promise::Restored;
use reel::Tile;
use size::Refusal;
use tally::Tally;

// The three forms in which a reel is shown. No more are to come, and each call below says side by side what the three show: a trait would
// say the same in twelve methods, and the command would choose among three copies of its walk.
#[derive(Clone, Copy)]
pub enum Form {
    Lines,
    Squares,
    Signs,
}

// The most bytes that one tile takes in any form.
pub const MOST: usize = 512;

// Shows a tile, which is the k-th of its reel and whose record begins at an offset. (The two numbers stay apart: one comes from the tally
// and one from the window, and a struct of them would be made for a call, only to be taken apart where they are put.)
#[tactic(auto, using(page::specs::Then::at_most, crate::specs::Laws::tile_some), unfolding(crate::specs::Picture::tile_shown))]
pub fn tile(
    form: Form,
    k: usize,
    offset: usize,
    tile: Tile,
    state: Result<Restored, Refusal>,
    page: &mut Page,
)
    requires in_bounds { Room 512 page.old }
    requires k_bound { k ≤ most_squares }
    ensures { PutOn 512 page.old (tile_shown form k offset tile.number tile.p tile.l (restore_said state)) page.new }
{
    match form {
        Form::Lines => page.put(line::tile_line(tile.number, tile.p, tile.l, state).text()),
        Form::Squares => {
            let line = line::tile_line(tile.number, tile.p, tile.l, state);
            drawing::square(k, offset, &line, tile.p, state, page);
        }
        Form::Signs => signs::sign(k, offset, state, page),
    }
}

// What stands before the first tile: a drawing begins with its size. (This call and the three below answer how much is used, and take
// bytes and no page: `Puts page.old 0 ..`, which they promise, says that what they put begins at the first byte.)
#[tactic(auto, unfolding(crate::specs::Picture::begun_shown))]
pub fn begun(form: Form, squares: usize, page: &mut [u8]) -> usize
    requires in_bounds { 4096 ≤ length page.old }
    requires squares_bound { squares ≤ most_squares }
    ensures { Puts page.old 0 (begun_shown form squares) result page.new }
{
    let mut page = Page::new(page);
    match form {
        Form::Squares => drawing::head(squares, &mut page),
        Form::Lines | Form::Signs => {}
    }
    page.used()
}

// What closes a reel that came to its end.
pub fn ended(form: Form, tally: Tally, page: &mut [u8]) -> usize
    requires in_bounds { 4096 ≤ length page.old }
    requires below { Below most_squares tally }
    ensures { Puts page.old 0 (ended_shown form tally) result page.new }
{
    let mut page = Page::new(page);
    match form {
        Form::Lines => page.put(line::end_line(tally.tiles).text()),
        Form::Squares => drawing::foot(tally, 0, &mut page),
        Form::Signs => {
            signs::end(tally.tiles, &mut page);
            signs::legend(tally, &mut page);
            page.put(line::end_line(tally.tiles).text());
        }
    }
    page.used()
}

// What closes a reel that stopped at a refusal and an offset.
pub fn stopped(form: Form, tally: Tally, refusal: Refusal, offset: usize, page: &mut [u8]) -> usize
    requires in_bounds { 4096 ≤ length page.old }
    requires below { Below most_squares tally }
    ensures { Puts page.old 0 (stopped_shown form tally (number_of refusal) offset) result page.new }
{
    let mut page = Page::new(page);
    match form {
        Form::Lines => page.put(line::stopped_line(refusal, offset).text()),
        Form::Squares => {
            drawing::stop(tally.tiles, offset, refusal, &mut page);
            drawing::foot(tally, 1, &mut page);
        }
        Form::Signs => {
            signs::stop(tally.tiles, offset, refusal, &mut page);
            signs::legend(tally, &mut page);
            page.put(line::stopped_line(refusal, offset).text());
        }
    }
    page.used()
}

// The line of a tile that was corrected by a sheet of so many records.
#[tactic(auto, unfolding(crate::specs::Picture::corrected_line))]
pub fn corrected(number: usize, p: usize, l: usize, count: usize, page: &mut [u8]) -> usize
    requires { 112 ≤ length page.old }
    ensures { Puts page.old 0 (corrected_line number p l count) result page.new }
{
    let mut page = Page::new(page);
    page.put_form(b"@ @ @ corrected @\n", &[number, p, l, count]);
    page.used()
}
