// The map of a reel in signs, for a terminal: a sign for each tile, 24 to a row, and before each row the offset of its first record.
ghost use Rattle.std.specs.Prelude.{◌≡◌};
ghost use Rattle.size.specs.Refusal.{number_of};
ghost use Rattle.promise.specs.Answer.{restore_said};
ghost use Rattle.page.specs.Page.{Room, PutOn};
ghost use Rattle.picture.specs.Picture as picture;

use crate::tally::Tally;
use page::Page;
use promise::{Repaired, Restored};
use size::Refusal;

// How many tiles stand in a row.
pub const ROW: usize = 24;

// The sign of a state.
#[tactic(auto, unfolding(crate::specs::Picture::sign))]
fn sign_of(state: Result<Restored, Refusal>) -> u8
    ensures { result ≡ picture.sign (restore_said state) }
{
    match state {
        Ok(Restored::Repaired(Repaired::Clean)) => b'.',
        Ok(Restored::Repaired(Repaired::Cell(_, _))) => b'o',
        Ok(Restored::Repaired(Repaired::Column(_))) => b'|',
        Ok(Restored::Repaired(Repaired::Row(_))) => b'-',
        Ok(Restored::Filled) => b'#',
        Err(Refusal::Doubtful) => b'?',
        Err(_) => b'x',
    }
}

// The offset before a row, where the k-th tile begins one.
#[tactic(auto, using(page::specs::Then::at_most, page::specs::Then::nothing_on), unfolding(crate::specs::Picture::row_begin))]
fn row_begin(k: usize, offset: usize, page: &mut Page)
    requires { Room 20 page.old }
    ensures { PutOn 20 page.old (picture.row_begin k offset) page.new }
{
    if k % ROW == 0 {
        page.put_right(offset);
    }
}

// The LF behind a row, where the k-th tile is its last.
#[tactic(auto, using(page::specs::Then::at_most, page::specs::Then::nothing_on), unfolding(crate::specs::Picture::row_end))]
fn row_end(k: usize, page: &mut Page)
    requires { Room 1 page.old }
    ensures { PutOn 1 page.old (picture.row_end k) page.new }
{
    if k % ROW == ROW - 1 {
        page.put(b"\n");
    }
}

// The sign of the k-th tile, with a space before it.
pub fn sign(k: usize, offset: usize, state: Result<Restored, Refusal>, page: &mut Page)
    requires { Room 23 page.old }
    ensures { PutOn 23 page.old (picture.signed k offset (restore_said state)) page.new }
{
    row_begin(k, offset, page);
    page.put(&[b' ', sign_of(state)]);
    row_end(k, page);
}

// What stands where the reel stopped, behind k tiles: the number of the refusal, and the LF.
pub fn stop(k: usize, offset: usize, refusal: Refusal, page: &mut Page)
    requires { Room 42 page.old }
    ensures { PutOn 42 page.old (picture.stop_signed k (number_of refusal) offset) page.new }
{
    row_begin(k, offset, page);
    page.put_form(b" @\n", &[size::number(refusal)]);
}

// The end of the last row of k tiles, if it is not full.
#[tactic(auto, using(page::specs::Then::at_most, page::specs::Then::nothing_on), unfolding(crate::specs::Picture::last_row_end))]
pub fn end(k: usize, page: &mut Page)
    requires { Room 1 page.old }
    ensures { PutOn 1 page.old (picture.last_row_end k) page.new }
{
    if k % ROW != 0 {
        page.put(b"\n");
    }
}

// The legend, with how many tiles have each sign.
#[tactic(auto, using(page::specs::Then::at_most), unfolding(crate::specs::Picture::sign_legend))]
pub fn legend(tally: Tally, page: &mut Page)
    requires { Room 224 page.old }
    ensures { PutOn 224 page.old (picture.sign_legend tally) page.new }
{
    page.put_form(
        b". clean @\no cell @\n| column @\n- row @\n# filled @\nx refused @\n? doubtful @\n",
        &[
            tally.clean,
            tally.cells,
            tally.columns,
            tally.rows,
            tally.filled,
            tally.refused,
            tally.doubtful,
        ],
    );
}
