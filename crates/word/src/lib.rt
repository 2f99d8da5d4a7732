// Answers as words, and numbers as kinds of tiles and records: what the C library's calls have in common.
#![tactic(auto)]

ghost use Rattle.std.specs.Prelude.{◌≡◌};
ghost use Rattle.size.specs.Answer.{judgement_said};
ghost use Rattle.size.specs.Refusal.{number_of};
ghost use Rattle.promise.specs.Answer.{outcome_said};
ghost use Rattle.word.specs.Version as numbered;
ghost use Rattle.word.specs.Word as spec;

use code::Kind;
use header::Mark;
use size::Refusal;

// The kinds of an answer. Done stands for clean and for a tile too. (Numbers, and no enum of answers: `word` promises the word of a kind
// and two numbers, as SPEC 11.1 has it, and which numbers these are only the calls know.)
pub const DONE: u16 = 0;

pub const COLUMN: u16 = 1;

pub const ROW: u16 = 2;

pub const CELL: u16 = 3;

pub const REFUSED: u16 = 4;

pub const END: u16 = 7;

// The word of a kind and its two numbers, which are 0 where it has none.
pub fn word(kind: u16, first: u16, second: u16) -> u64
    ensures { result ≡ spec.word (spec.answer kind first second) }
{
    u64::from(kind) * 0x100000000 + u64::from(first) * 0x10000 + u64::from(second)
}

// Done, clean or a tile.
pub fn done() -> u64
    ensures { result ≡ spec.word spec.done }
{
    word(DONE, 0, 0)
}

// A refusal, by its number.
pub fn refused(refusal: Refusal) -> u64
    ensures { result ≡ spec.word (spec.refusal (number_of refusal)) }
{
    word(REFUSED, size::number(refusal) as u16, 0)
}

// The end of a reel.
pub fn end() -> u64
    ensures { result ≡ spec.word (spec.answer 7 0 0) }
{
    word(END, 0, 0)
}

// What is done, or refused: what a size and a slope are judged to be, and what write, read, fill and judge answer.
pub fn outcome(answer: Result<(), Refusal>) -> u64
    ensures judged { result ≡ spec.word (spec.size_answer (judgement_said answer)) }
    ensures called { result ≡ spec.word (spec.tile_answer (outcome_said answer)) }
{
    match answer {
        Ok(()) => done(),
        Err(refusal) => refused(refusal),
    }
}

// The version as one number, which include/counterfrost.h has too.
pub fn version() -> u64
    ensures { result ≡ numbered.version }
{
    800
}

// The kind that a number stands for: 1 is old, and every other one new, the stricter of the two. (This and the next two are functions, and
// no `From`: `Kind` and `Mark` are other crates' types, and these numbers are C's alone.)
#[tactic(auto, unfolding(crate::specs::Word::tile_kind))]
pub fn kind(n: usize) -> Kind
    ensures { result ≡ spec.tile_kind n }
{
    match n {
        1 => Kind::Old,
        _ => Kind::New,
    }
}

// The number of a kind.
pub fn kind_number(kind: Kind) -> u64
    ensures { result ≡ spec.kind_number kind }
{
    match kind {
        Kind::New => 0,
        Kind::Old => 1,
    }
}

// Which record a number stands for: 1 is that of an old tile, 2 the flagged one, and every other that of a new tile.
#[tactic(auto, unfolding(crate::specs::Word::mark_of))]
pub fn mark(n: usize) -> Mark
    ensures { result ≡ spec.mark_of n }
{
    match n {
        1 => Mark::Old,
        2 => Mark::Flagged,
        _ => Mark::Plain,
    }
}
