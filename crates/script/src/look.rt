// The questions that change nothing: each makes its calls and writes what they answer.
ghost use Rattle.std.specs.Prelude.{length};
ghost use Rattle.walk.specs.Sums.{Shape};

use crate::answer;
use crate::question::Question;
use code::Kind;
use walk::sums::both_sums;

// By the first letter of its name.
pub fn look(question: Question, held: &[u8]) {
    let Question {
        name,
        kind,
        p,
        l,
        ..
    } = question;
    match name {
        b'h' => house(p),
        b'j' => judge(kind, p, l),
        b's' => sums(p, l, held),
        _ => place(p.wrapping_sub(l), held),
    }
}

fn house(p: usize) {
    match size::house_slope(p) {
        Ok(l) => answer::count(b" slope", l),
        Err(refusal) => answer::refused(refusal),
    }
}

fn judge(kind: Kind, p: usize, l: usize) {
    match size::judge(kind, p, l) {
        Ok(()) => answer::words(b" taken"),
        Err(refusal) => answer::refused(refusal),
    }
}

// The sums of the lines of a slope, where there are any: of every slope but 0, also of one that the calls refuse.
fn sums(p: usize, s: usize, tile: &[u8]) {
    if !size::takes_size(p) {
        return;
    }
    if 0 < s && s < p && tile.len() == promise::tile_length(p) {
        sums_along(p, s, tile);
    }
}

fn sums_along(p: usize, s: usize, tile: &[u8])
    requires { Shape p s (length tile.now) }
{
    let mut ones = [0u8; 257];
    let mut sums = [0u8; 257];
    both_sums(p, s, tile, &mut ones, &mut sums);
    answer::words(b" sums");
    answer::bytes(&sums[..p]);
}

// What stands at a place of a reel, the place after it, how long the rest is and what it begins with; what stands behind the first
// record, as the reader finds it; and the bytes of the tile at the place.
fn place(at: usize, reel: &[u8]) {
    let rest = reel::rest(reel, at);
    answer::found(reel::next(reel, at));
    answer::count(b" after", reel::after(reel, at));
    answer::count(b" rest", rest.len());
    answer::found(reel::next(rest, 0));
    answer::words(b" second");
    answer::found(reel::reader::second(reel));
    answer::bytes(reel::bytes(reel, at));
}
