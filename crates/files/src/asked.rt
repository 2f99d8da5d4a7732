// The words behind the command: how many of them are plain, which options are said, and each plain word by its number.
use crate::held::Word;
use crate::told::Told;
use crate::{guide, say};
use std::env::FillError;
use std::io::Error;
use words::{NoNumber, Sort, Verb};

// The system's number for a name that is too long.
const NAME_TOO_LONG: i32 = 36;

// The place of the first word behind the command.
const FIRST: usize = 2;

// What stands behind the command: how many plain words, and which options.
#[derive(Clone, Copy)]
pub struct Asked {
    pub plain: usize,
    pub force: bool,
    pub text: bool,
}

impl Asked {
    // One more word, of this sort.
    fn add(&mut self, sort: Sort) {
        match sort {
            Sort::Plain => self.plain = self.plain.saturating_add(1),
            Sort::Force => self.force = true,
            Sort::Text => self.text = true,
        }
    }
}

// All words behind the command. The first that is too long to be held, or that the command does not take, is told. How many there are only
// the system knows, and a loop without an end needs the handle Wait, which no function here has: so it is a range.
fn all(rt: &HostRuntime, verb: Verb) -> Result<Asked, Told> {
    let mut asked = Asked {
        plain: 0,
        force: false,
        text: false,
    };
    let mut word = Word::empty();
    for place in FIRST..usize::MAX {
        match word.read(rt, place) {
            Ok(()) => asked.add(taken(rt, verb, &word)?),
            Err(FillError::TooLong) => return Err(too_long(rt)),
            Err(FillError::NotPresent) => break,
        }
    }
    Ok(asked)
}

// The sort of a word, if the command takes it. If not, that is said.
fn taken(rt: &HostRuntime, verb: Verb, word: &Word) -> Result<Sort, Told> {
    match words::sort_of(word.bytes()) {
        Some(sort) if verb.takes(sort) => Ok(sort),
        _ => Err(guide::wrong_option(rt, Some(verb), word.bytes())),
    }
}

// All words behind the command, if they are such and as many as it takes. If not, it is said what is wrong.
pub fn words(rt: &HostRuntime, verb: Verb) -> Result<Asked, Told> {
    let asked = all(rt, verb)?;
    if asked.plain < verb.fewest() {
        return Err(guide::too_few(rt, Some(verb)));
    }
    if asked.plain > verb.most() {
        let first = word(rt, verb.most())?;
        return Err(guide::too_many(rt, Some(verb), first.bytes()));
    }
    Ok(asked)
}

// The k-th plain word. Where it is not there or cannot be held whole, it is said that a word is too long. It is looked for in a frame of
// its own, so that what that takes is free again. The range is the one of `all`. A chain with `nth` would move each word from step to
// step: it takes ten times as long for the texts of `write`.
#[inline(never)]
pub fn word(rt: &HostRuntime, k: usize) -> Result<Word, Told> {
    let mut word = Word::empty();
    let mut left = k;
    for place in FIRST..usize::MAX {
        if word.read(rt, place).is_err() {
            break;
        }
        if words::sort_of(word.bytes()) == Some(Sort::Plain) {
            if left == 0 {
                return Ok(word);
            }
            left -= 1;
        }
    }
    Err(too_long(rt))
}

// The number that the k-th plain word says. If it says none, that is said. The word's room is free again then.
#[inline(never)]
pub fn number(rt: &HostRuntime, verb: Verb, k: usize) -> Result<usize, Told> {
    let word = word(rt, k)?;
    words::number(word.bytes()).map_err(|why| match why {
        NoNumber::TooLarge => guide::wrong(rt, Some(verb), word.bytes(), b": above 4294967295"),
        NoNumber::NotDigits => guide::wrong(rt, Some(verb), word.bytes(), b": no number"),
    })
}

// Says that a word is too long to be held.
pub fn too_long(rt: &HostRuntime) -> Told {
    say::failed(rt, b"a word", name_too_long())
}

// What the system says of a name that is too long.
pub fn name_too_long() -> Error {
    Error::from_raw_os_error(NAME_TOO_LONG)
}
