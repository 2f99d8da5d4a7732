// The words of a command line: which command, which option, which number and which line of a tile a word is, and how many words a command
// takes.
#![tactic(auto)]

ghost use Rattle.std.specs.Prelude.{◌≡◌};
ghost use Rattle.code.specs.Says.{Says};
ghost use Rattle.words.specs.Words.{VerbIs, SortIs, AmountIs, LineIs, name_of, fewest_words, most_words, Takes, fewest_behind, most_behind, TakesBehind};

use code::Line;

// The commands.
#[derive(Clone, Copy, PartialEq, Eq)]
pub enum Verb {
    List,
    Repair,
    Map,
    Read,
    Write,
    Fill,
    Correct,
    Help,
    Version,
}

// What sort of word stands behind the command.
#[derive(Clone, Copy, PartialEq, Eq)]
pub enum Sort {
    Plain,
    Force,
    Text,
}

// Why a word says no number.
#[derive(Clone, Copy, PartialEq, Eq)]
pub enum NoNumber {
    TooLarge,
    NotDigits,
}

// The largest number that a tile can have.
pub const LARGEST: usize = 4294967295;

// The options.
const FORCE: &[u8] = b"--force";

const TEXT: &[u8] = b"--text";

// The command that a word names, where it names one.
pub fn verb_of(word: &[u8]) -> Option<Verb>
    ensures { VerbIs word.now result }
{
    Verb::ALL.iter().copied().find(|verb| word == verb.name())
}

// What sort of word it is: there are two options, and what else begins with two hyphens is of no sort.
pub fn sort_of(word: &[u8]) -> Option<Sort>
    ensures { SortIs word.now result }
{
    if word == FORCE {
        Some(Sort::Force)
    } else if word == TEXT {
        Some(Sort::Text)
    } else if word.starts_with(b"--") {
        None
    } else {
        Some(Sort::Plain)
    }
}

// The number that a word says in decimal digits.
pub fn number(word: &[u8]) -> Result<usize, NoNumber>
    ensures { AmountIs word.now result }
{
    if word.is_empty() {
        return Err(NoNumber::NotDigits);
    }
    let mut n = 0;
    for sign in word {
        if !sign.is_ascii_digit() {
            return Err(NoNumber::NotDigits);
        }
        if n <= LARGEST {
            n = n * 10 + (*sign - b'0') as usize;
        }
    }
    if n > LARGEST {
        return Err(NoNumber::TooLarge);
    }
    Ok(n)
}

// The line of a tile that a word names: row:N or column:N.
pub fn line(word: &[u8]) -> Option<Line>
    ensures { LineIs word.now result }
{
    if let Some(digits) = word.strip_prefix(b"row:") {
        return number(digits).ok().map(Line::Row);
    }
    if let Some(digits) = word.strip_prefix(b"column:") {
        return number(digits).ok().map(Line::Column);
    }
    None
}

// The fewest plain words behind a first word that names this command, or that names none: behind that one none is wanted.
pub fn fewest(verb: Option<Verb>) -> usize
    ensures { result ≡ fewest_behind verb }
{
    verb.map_or(0, Verb::fewest)
}

// The most of them.
pub fn most(verb: Option<Verb>) -> usize
    ensures { result ≡ most_behind verb }
{
    verb.map_or(0, Verb::most)
}

// Is a word of this sort, or of none, taken behind such a first word?
pub fn takes(verb: Option<Verb>, sort: Option<Sort>) -> bool
    ensures { Says result (TakesBehind verb sort) }
{
    let Some(sort) = sort else {
        return false;
    };
    match verb {
        Some(verb) => verb.takes(sort),
        None => matches!(sort, Sort::Plain),
    }
}

impl Verb {
    // All of them, in the order in which the guide tells them.
    pub const ALL: [Verb; 9] = [
        Verb::List,
        Verb::Repair,
        Verb::Map,
        Verb::Read,
        Verb::Write,
        Verb::Fill,
        Verb::Correct,
        Verb::Help,
        Verb::Version,
    ];

    // The word that names the command.
    pub fn name(self) -> &'static [u8]
        ensures { result.now ≡ name_of self }
    {
        match self {
            Verb::List => b"list",
            Verb::Repair => b"repair",
            Verb::Map => b"map",
            Verb::Read => b"read",
            Verb::Write => b"write",
            Verb::Fill => b"fill",
            Verb::Correct => b"correct",
            Verb::Help => b"help",
            Verb::Version => b"version",
        }
    }

    // The fewest plain words that the command takes.
    pub fn fewest(self) -> usize
        ensures { result ≡ fewest_words self }
    {
        match self {
            Verb::List | Verb::Map => 1,
            Verb::Repair | Verb::Read => 2,
            Verb::Write => 5,
            Verb::Fill | Verb::Correct => 4,
            Verb::Help | Verb::Version => 0,
        }
    }

    // The most that it takes. Of texts there may be as many as a system can hand over.
    pub fn most(self) -> usize
        ensures { result ≡ most_words self }
    {
        match self {
            Verb::Write => LARGEST,
            Verb::Fill => 5,
            Verb::Help => 1,
            _ => self.fewest(),
        }
    }

    // Does it take a word of this sort?
    pub fn takes(self, sort: Sort) -> bool
        ensures { Says result (Takes self sort) }
    {
        match sort {
            Sort::Plain => true,
            Sort::Text => matches!(self, Verb::Map),
            Sort::Force => matches!(
                self,
                Verb::Repair | Verb::Write | Verb::Fill | Verb::Correct
            ),
        }
    }
}
