// The questions: each makes its call, by the first letter of its name, and writes what it answers. Those on sizes, sums and reels stand in
// `script`.
use script::answer;
use script::look::look;
use script::question::Question;

// `held` may be changed by a call, `lent` is only read.
pub fn ask(question: Question, held: &mut [u8], lent: &[u8]) {
    let Question {
        name,
        kind,
        p,
        l,
        first,
        second,
    } = question;
    match name {
        b'w' => answer::outcome(tile::write(kind, p, l, lent, held)),
        b'r' => answer::outcome(tile::read(kind, p, l, lent, held)),
        b'm' => answer::repaired(tile::repair(kind, p, l, held)),
        b'l' => answer::repaired(tile::inspect(kind, p, l, held)),
        b't' => answer::repaired(tile::recover(kind, p, l, lent, held)),
        b'f' => answer::outcome(tile::fill(kind, p, l, held, first, second)),
        b'a' => answer::outcome(tile::judge(p, l, lent, held, first, second)),
        b'c' => answer::corrected(sheet::correct(kind, p, l, held, lent)),
        _ => look(question, held),
    }
}
