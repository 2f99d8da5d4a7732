// Shows a window of a reel: each tile is restored where it stands and put on a page, in one of three forms.
#![tactic(auto)]

pub mod status;

ghost use Rattle.std.specs.Prelude.{◌≡◌, ◌≤◌};
ghost use Rattle.code.specs.Says.{Says};
ghost use Rattle.reel.specs.Answer.{tile as tile_said};
ghost use Rattle.reel.specs.Calls.{NextTold};
ghost use Rattle.page.specs.Page.{Room};
ghost use Rattle.picture.specs.Tally.{Below, most_squares};
ghost use Rattle.show.specs.Show.{PastTold, AlongTold, Near};

use page::Page;
use picture::Form;
use picture::tally::Tally;
use reel::Tile;
use window::NoTile;

// A walk: the place that it has come to, the tiles so far, and how much of the page is used. (The page knows this too; but `Walks` says by
// it whether one more tile has room, and its theorems, as `windows_list`, speak of walks with no page beside them.)
#[derive(Clone, Copy)]
pub struct Walk {
    pub place: usize,
    pub tally: Tally,
    pub used: usize,
}

// The walk behind a tile, which is restored and shown. (Six values, which `PastTold` relates: window and page are lent apart.)
fn past(
    form: Form,
    window: &mut [u8],
    offset: usize,
    walk: Walk,
    tile: Tile,
    page: &mut Page,
) -> Walk
    requires next_told { NextTold window.old walk.place (tile_said tile) }
    requires used_in_bounds { Room 512 page.old }
    requires used { page.old.used ≡ walk.used }
    requires below { Below most_squares walk.tally }
    requires offset_bound { offset ≤ 100000000000000000 }
    ensures past { PastTold form offset window.old walk tile page.old.bytes.now result window.new page.new.bytes.now }
    ensures used { page.new.used ≡ result.used }
    ensures same_reference { page.new.bytes.ghost_name ≡ page.old.bytes.ghost_name }
{
    let state = window::restore(window, tile);
    picture::tile(
        form,
        walk.tally.tiles,
        offset + walk.place,
        tile,
        state,
        page,
    );
    Walk {
        place: tile.behind(),
        tally: walk.tally.with(state),
        used: page.used(),
    }
}

// What a walk came to, and why it ended: no tile stands there, or nothing is told where the page is full.
#[derive(Clone, Copy)]
pub struct Walked {
    pub walk: Walk,
    pub ending: Option<NoTile>,
}

// Walks along a window from a place on, restores each tile and shows it, as long as there is room on the page. (Seven values, since this is
// public and `AlongTold` names each. A loop with places by hand: each tile changes the window, and says where the next one begins.)
pub fn along(
    form: Form,
    window: &mut [u8],
    from: usize,
    last: bool,
    offset: usize,
    tally: Tally,
    page: &mut [u8],
) -> Walked
    requires { Near offset tally }
    ensures { AlongTold form last offset window.old from tally page.old result window.new page.new }
{
    let mut page = Page::new(page);
    let mut walk = Walk {
        place: from,
        tally,
        used: 0,
    };
    while picture::MOST <= page.left() {
        match window::look(window, walk.place, last) {
            Ok(tile) => walk = past(form, window, offset, walk, tile, &mut page),
            Err(why) => {
                return Walked {
                    walk,
                    ending: Some(why),
                };
            }
        }
    }
    Walked { walk, ending: None }
}

// The most bytes, and the most tiles, that are counted.
pub const FAR: usize = 100000000000000000;

// Is the offset at most that, and each count of the tally below it?
pub fn is_near(offset: usize, tally: Tally) -> bool
    ensures { Says result (Near offset tally) }
{
    offset <= FAR && tally.is_below(FAR)
}
