// The map of a reel as a drawing, in SVG: a square for each tile, 24 to a row, and before each row the offset of its first record. Shape
// and colour both tell the state of a tile.
ghost use Rattle.std.specs.Prelude.{◌≡◌, [], ◌∷◌, ◌+◌, ◌/◌, ◌≤◌, ◌<◌, length};
ghost use Rattle.size.specs.Refusal.{number_of};
ghost use Rattle.promise.specs.Answer.{repaired_said, restore_said, cell};
ghost use Rattle.page.specs.Page.{Room, PutOn, filled, room};
ghost use Rattle.picture.specs.Picture as picture;
ghost use Rattle.picture.specs.Tally.{Below, most_squares};

use crate::signs::ROW;
use crate::tally::Tally;
use lettering::line;
use lettering::line::Line;
use page::Page;
use promise::{Repaired, Restored};
use size::Refusal;

// Where a line of a tile is drawn, of 0 to `most`. A size below 3 and a line above 65535 do not occur; they are drawn at 0 and not
// forbidden, since `picture::tile` asks nothing of a tile's size and lines, and its `tile_shown` says 0 for these.
#[tactic(auto, unfolding(crate::specs::Picture::along))]
fn along(most: usize, n: usize, p: usize) -> usize
    requires { most ≤ 25 }
    ensures value { result ≡ picture.along most n p }
    ensures upper_bound { result ≤ 2000000 }
{
    if p < 3 || 65535 < n {
        0
    } else {
        most * n / (p - 2)
    }
}

// A dot for a cell.
#[tactic(auto, using(page::specs::Then::at_most), unfolding(crate::specs::Picture::shape))]
fn dot(r: usize, c: usize, p: usize, page: &mut Page)
    requires { Room 114 page.old }
    ensures { PutOn 114 page.old (picture.shape p (cell r c)) page.new }
{
    page.put_form(
        b"<path class=\"h\" d=\"M0 0h28v28h-28z\"/><circle class=\"b\" cx=\"@\" cy=\"@\" r=\"4\"/>",
        &[4 + along(20, c, p), 4 + along(20, r, p)],
    );
}

// A bar for a line, whose form is given.
fn bar(form: &[u8], n: usize, p: usize, page: &mut Page)
    requires { Room (room form.now) page.old }
    ensures { PutOn (room form.now) page.old (filled form.now (picture.along 25 n p ∷ [])) page.new }
{
    page.put_form(form, &[along(25, n, p)]);
}

// A question mark for what is doubtful, and a cross for what is refused by any other number.
#[tactic(auto, using(page::specs::Then::at_most), unfolding(crate::specs::Picture::refused_shape))]
fn refused(refusal: Refusal, page: &mut Page)
    requires { Room 114 page.old }
    ensures { PutOn 114 page.old (picture.refused_shape (number_of refusal)) page.new }
{
    match refusal {
        Refusal::Doubtful => page.put(
            b"<path class=\"d\" d=\"M0 0h28v28h-28z\"/><path class=\"x\" d=\"M9 11c0-7 10-7 10-1c0 4-5 4-5 7m0 3v3\"/>",
        ),
        _ => page.put(
            b"<path class=\"r\" d=\"M0 0h28v28h-28z\"/><path class=\"x\" d=\"M6 6l16 16m0-16l-16 16\"/>",
        ),
    }
}

// The shape of what was found in a tile.
#[tactic(auto, using(page::specs::Then::at_most), unfolding(crate::specs::Picture::shape))]
fn found(p: usize, found: Repaired, page: &mut Page)
    requires { Room 114 page.old }
    ensures { PutOn 114 page.old (picture.shape p (repaired_said found)) page.new }
{
    match found {
        Repaired::Clean => page.put(b"<path class=\"k\" d=\"M0 0h28v28h-28z\"/>"),
        Repaired::Cell(r, c) => dot(r, c, p, page),
        Repaired::Column(c) => bar(
            b"<path class=\"h\" d=\"M0 0h28v28h-28z\"/><path class=\"b\" d=\"M@ 0h3v28h-3z\"/>",
            c,
            p,
            page,
        ),
        Repaired::Row(r) => bar(
            b"<path class=\"h\" d=\"M0 0h28v28h-28z\"/><path class=\"b\" d=\"M0 @h28v3h-28z\"/>",
            r,
            p,
            page,
        ),
    }
}

// The shape of a state.
#[tactic(auto, using(page::specs::Then::at_most), unfolding(crate::specs::Picture::shape))]
fn shape(p: usize, state: Result<Restored, Refusal>, page: &mut Page)
    requires { Room 114 page.old }
    ensures { PutOn 114 page.old (picture.shape p (restore_said state)) page.new }
{
    match state {
        Ok(Restored::Repaired(repaired)) => found(p, repaired, page),
        Ok(Restored::Filled) => page.put(
            b"<path class=\"f\" d=\"M0 0h28v28h-28z\"/><path class=\"i\" d=\"M8 8h12v12h-12z\"/>",
        ),
        Err(refusal) => refused(refusal, page),
    }
}

// The offset before a row, where the k-th square begins one.
#[tactic(auto, using(page::specs::Then::at_most, page::specs::Then::nothing_on), unfolding(crate::specs::Picture::label))]
fn label(k: usize, offset: usize, page: &mut Page)
    requires k_bound { k ≤ most_squares }
    requires in_bounds { Room 76 page.old }
    ensures { PutOn 76 page.old (picture.label k offset) page.new }
{
    if k % ROW == 0 {
        page.put_form(
            b"<text class=\"o\" x=\"88\" y=\"@\">@</text>\n",
            &[16 + 32 * (k / ROW) + 18, offset],
        );
    }
}

// The beginning of the k-th square: the offset, if it begins a row, its place, and a line without its LF as the title. There are 32 units
// to a square, behind 96 for the offsets and below 16 of margin.
fn begin(k: usize, offset: usize, line: &Line, page: &mut Page)
    requires k_bound { k ≤ most_squares }
    requires length_nonzero { 0 < length line.now }
    requires in_bounds { Room 270 page.old }
    ensures { PutOn 270 page.old (picture.begin k offset line.now) page.new }
{
    let text = line.text();
    label(k, offset, page);
    page.put_form(
        b"<g transform=\"translate(@ @)\"><title>",
        &[96 + 32 * (k % ROW), 16 + 32 * (k / ROW)],
    );
    page.put(&text[..text.len() - 1]);
    page.put(b"</title>");
}

// The square of the k-th tile. (Six values, each of which its picture shows: a struct of some would only be made for this call.)
pub fn square(
    k: usize,
    offset: usize,
    line: &Line,
    p: usize,
    state: Result<Restored, Refusal>,
    page: &mut Page,
)
    requires k_bound { k ≤ most_squares }
    requires length_nonzero { 0 < length line.now }
    requires in_bounds { Room 389 page.old }
    ensures { PutOn 389 page.old (picture.square k offset line.now p (restore_said state)) page.new }
{
    begin(k, offset, line, page);
    shape(p, state, page);
    page.put(b"</g>\n");
}

// The dashed square where the reel stopped, behind k tiles.
#[tactic(auto, using(crate::specs::Laws::stopped_some))]
pub fn stop(k: usize, offset: usize, refusal: Refusal, page: &mut Page)
    requires k_bound { k ≤ most_squares }
    requires in_bounds { Room 369 page.old }
    ensures { PutOn 369 page.old (picture.stop k (number_of refusal) offset) page.new }
{
    begin(k, offset, &line::stopped_line(refusal, offset), page);
    page.put_form(
        b"<path class=\"s\" d=\"M1 1h26v26h-26z\"/><text class=\"n\" x=\"14\" y=\"18\">@</text></g>\n",
        &[size::number(refusal)],
    );
}

// How many rows so many squares take.
fn rows(squares: usize) -> usize
    ensures { result ≡ (squares + 23) / 24 }
{
    squares.div_ceil(ROW)
}

// The drawing's first lines, for so many squares. The colours are light for what is well, and dark with white signs for what is not.
#[tactic(auto, using(page::specs::Then::at_most), unfolding(crate::specs::Picture::head))]
pub fn head(squares: usize, page: &mut Page)
    requires squares_bound { squares ≤ most_squares }
    requires in_bounds { Room 500 page.old }
    ensures { PutOn 500 page.old (picture.head squares) page.new }
{
    let height = 112 + 32 * rows(squares);
    page.put_form(
        b"<svg xmlns=\"http://www.w3.org/2000/svg\" width=\"872\" height=\"@\" viewBox=\"0 0 872 @\">\n\
        <style>\
        text{font:12px monospace;fill:#333}.o{text-anchor:end}.n{text-anchor:middle}.k{fill:#e0efe0}.h{fill:#efcb70}\
        .b{fill:#b00020}.f{fill:#bcd4ee}.i{fill:#1f4e8c}.r{fill:#3a3a3a}.d{fill:#6b4a8c}\
        .x{fill:none;stroke:#fff;stroke-width:3}.s{fill:none;stroke:#b00020;stroke-width:2;stroke-dasharray:4 3}\
        </style>\n\
        <path fill=\"#fff\" d=\"M0 0h872v@h-872z\"/>\n",
        &[height, height, height],
    );
}

// The legend, four entries to a row, with how many squares have each shape, and the end of the drawing. (One form and the numbers of its
// @s in their order: `foot` of specs/Picture.antt says the same, byte by byte.)
#[tactic(auto, using(page::specs::Then::at_most), unfolding(crate::specs::Picture::foot))]
pub fn foot(tally: Tally, stops: usize, page: &mut Page)
    requires below { Below most_squares tally }
    requires stops_bound { stops ≤ 1 }
    requires in_bounds { Room 2000 page.old }
    ensures { PutOn 2000 page.old (picture.foot tally stops) page.new }
{
    let upper = 32 + 32 * rows(tally.tiles + stops);
    let lower = upper + 36;
    let numbers = [
        upper,
        tally.clean,
        upper,
        tally.cells,
        upper,
        tally.columns,
        upper,
        tally.rows,
        lower,
        tally.filled,
        lower,
        tally.refused,
        lower,
        tally.doubtful,
        lower,
        stops,
    ];
    page.put_form(
        b"<g transform=\"translate(96 @)\"><path class=\"k\" d=\"M0 0h28v28h-28z\"/>\
        <text x=\"36\" y=\"18\">clean @</text></g>\n\
        <g transform=\"translate(288 @)\"><path class=\"h\" d=\"M0 0h28v28h-28z\"/><circle class=\"b\" cx=\"14\" cy=\"14\" r=\"4\"/>\
        <text x=\"36\" y=\"18\">cell @</text></g>\n\
        <g transform=\"translate(480 @)\"><path class=\"h\" d=\"M0 0h28v28h-28z\"/><path class=\"b\" d=\"M12 0h3v28h-3z\"/>\
        <text x=\"36\" y=\"18\">column @</text></g>\n\
        <g transform=\"translate(672 @)\"><path class=\"h\" d=\"M0 0h28v28h-28z\"/><path class=\"b\" d=\"M0 12h28v3h-28z\"/>\
        <text x=\"36\" y=\"18\">row @</text></g>\n\
        <g transform=\"translate(96 @)\"><path class=\"f\" d=\"M0 0h28v28h-28z\"/><path class=\"i\" d=\"M8 8h12v12h-12z\"/>\
        <text x=\"36\" y=\"18\">filled @</text></g>\n\
        <g transform=\"translate(288 @)\"><path class=\"r\" d=\"M0 0h28v28h-28z\"/><path class=\"x\" d=\"M6 6l16 16m0-16l-16 16\"/>\
        <text x=\"36\" y=\"18\">refused @</text></g>\n\
        <g transform=\"translate(480 @)\"><path class=\"d\" d=\"M0 0h28v28h-28z\"/><path class=\"x\" d=\"M9 11c0-7 10-7 10-1c0 4-5 4-5 7m0 3v3\"/>\
        <text x=\"36\" y=\"18\">doubtful @</text></g>\n\
        <g transform=\"translate(672 @)\"><path class=\"s\" d=\"M1 1h26v26h-26z\"/>\
        <text x=\"36\" y=\"18\">stopped @</text></g>\n\
        </svg>\n",
        &numbers,
    );
}
