// The lines of a listing: that of a tile, and the closing ones.
ghost use Rattle.std.specs.Prelude.{◌≡◌, List, ℕ, ◌++◌, [], ◌∷◌, ◌+◌, ◌≤◌, length, take};
ghost use Rattle.size.specs.Refusal.{number_of};
ghost use Rattle.promise.specs.Answer.{repaired_said, restore_said};
ghost use Rattle.lettering.specs.Line.{lf, decimal, state_text, tile_line, end_line, stopped_line};

use promise::{Repaired, Restored};
use size::Refusal;
use std::marker::Model;

// The most bytes that a line has. Five numbers of at most 20 digits, the word `cell`, the spaces between them and the LF make 110; the
// bound that `text` promises is the next multiple of eight.
const MOST: usize = 112;

// A line: the first `length` of its bytes. Those behind are 0, so that a line is its text and nothing else. (The kit's `ArrayVec` takes
// words by a call that answers an error where there is no room: here the contracts say that there is.)
#[derive(Clone, Copy)]
pub struct Line {
    bytes: [u8; MOST],
    length: usize,
}

impl Model for Line {
    ghost use Rattle.std.specs.Prelude.{List, ℕ, take};
    ghost use Rattle.lettering.specs.Blank.{BlankBehind, padded, count, padded_back, text_long};

    ghost Value = { List ℕ };

    ghost view = { λ line. take line.length line.bytes };

    ghost invariant = { λ line. BlankBehind line.length line.bytes };

    ghost inverse = { λ text. record { bytes = padded text; length = count text } };

    ghost inverse_ok = { λ line h. rw (padded_back line.length line.bytes h, text_long line.length line.bytes h) };
}

impl Line {
    // A line with nothing on it yet.
    fn new() -> Line
        ensures { result ≡ [] }
    {
        Line {
            bytes: [0u8; MOST],
            length: 0,
        }
    }

    // The text that it has.
    pub fn text(&self) -> &[u8]
        ensures text { result.now ≡ self.now }
        ensures upper_bound { length result.now ≤ 112 }
    {
        &self.bytes[..self.length]
    }

    // The line with words behind what it has.
    fn with_words(mut self, words: &[u8]) -> Line
        requires { length self + length words.now ≤ 112 }
        ensures { result ≡ self ++ words.now }
    {
        let start = self.length;
        let end = start + words.len();
        self.bytes[start..end].copy_from_slice(words);
        self.length = end;
        self
    }

    // The line with a number behind what it has, and then a sign: a space, or the LF. (By digits of its own: those of `digits` are a line, and
    // to make and copy one for each number took a third more for a tile's line.)
    fn with_number(self, n: usize, sign: u8) -> Line
        requires { length self + 21 ≤ 112 }
        ensures is { result ≡ self ++ decimal n ++ (sign ∷ []) }
        ensures length_bound { length result ≤ length self + 21 }
    {
        let mut digits = [0u8; 20];
        let count = io::decimal(n as u64, &mut digits);
        self.with_words(&digits[..count]).with_words(&[sign])
    }

    // The line with what was found in a tile behind what it has, and the LF.
    #[tactic(auto, unfolding(crate::specs::Line::state_text))]
    fn with_found(self, found: Repaired) -> Line
        requires { length self ≤ 63 }
        ensures { result ≡ self ++ state_text (repaired_said found) ++ lf }
    {
        match found {
            Repaired::Clean => self.with_words(b"clean\n"),
            Repaired::Cell(r, c) => self
                .with_words(b"cell ")
                .with_number(r, b' ')
                .with_number(c, b'\n'),
            Repaired::Column(c) => self.with_words(b"column ").with_number(c, b'\n'),
            Repaired::Row(r) => self.with_words(b"row ").with_number(r, b'\n'),
        }
    }

    // The line with what comes of restoring a tile behind what it has, and the LF.
    #[tactic(auto, unfolding(crate::specs::Line::state_text))]
    fn with_state(self, state: Result<Restored, Refusal>) -> Line
        requires { length self ≤ 63 }
        ensures { result ≡ self ++ state_text (restore_said state) ++ lf }
    {
        match state {
            Ok(Restored::Repaired(found)) => self.with_found(found),
            Ok(Restored::Filled) => self.with_words(b"filled\n"),
            Err(refusal) => self
                .with_words(b"refused ")
                .with_number(size::number(refusal), b'\n'),
        }
    }
}

// A number in decimal, and nothing more. A `write!` would answer an error where there is no room: here the contract says that there is.
pub fn digits(n: usize) -> Line
    ensures is { result ≡ decimal n }
    ensures length_bound { length result ≤ 20 }
{
    let mut digits = [0u8; 20];
    let count = io::decimal(n as u64, &mut digits);
    Line::new().with_words(&digits[..count])
}

// The line of a tile: its number, size and slope, and what comes of restoring it.
#[tactic(auto, unfolding(crate::specs::Line::tile_line))]
pub fn tile_line(number: usize, p: usize, l: usize, state: Result<Restored, Refusal>) -> Line
    ensures { result ≡ tile_line number p l (restore_said state) }
{
    Line::new()
        .with_number(number, b' ')
        .with_number(p, b' ')
        .with_number(l, b' ')
        .with_state(state)
}

// The closing line at the end of a reel: how many tiles it has.
#[tactic(auto, unfolding(crate::specs::Line::end_line))]
pub fn end_line(count: usize) -> Line
    ensures { result ≡ end_line count }
{
    Line::new().with_words(b"end ").with_number(count, b'\n')
}

// The closing line at a refusal: its number, and the offset of the record.
#[tactic(auto, unfolding(crate::specs::Line::stopped_line))]
pub fn stopped_line(refusal: Refusal, offset: usize) -> Line
    ensures { result ≡ stopped_line (number_of refusal) offset }
{
    Line::new()
        .with_words(b"stopped ")
        .with_number(size::number(refusal), b' ')
        .with_number(offset, b'\n')
}
