// The header of a record: which of the three records it is, and what stands before the tile's bytes. Here alone the code knows how a record
// is laid out.
#![tactic(auto)]

ghost use Rattle.std.specs.Prelude.{◌≡◌, ◌+◌, ◌/◌, ◌%◌, ◌≤◌, ◌<◌, [], ◌∷◌, length, Some};
ghost use Rattle.code.specs.Says.{Says};
ghost use Rattle.header.specs.Header.{kind_of, header_length, StartIs, HeaderAt, Carried, Carries, flag_at};
ghost use Rattle.header.specs.Laid.{mark_number, Fits, header_bytes};

use code::{Kind, Line};

// The mark of a record: that of a new tile, that of a new tile with flags, or that of an old one.
#[derive(Clone, Copy, PartialEq, Eq)]
pub enum Mark {
    Plain,
    Flagged,
    Old,
}

// The two bytes of each mark, as a number.
const PLAIN: usize = 0xD55D;

const FLAGGED: usize = 0xD55E;

const OLD: usize = 0x5DD5;

// The bytes of the shortest header.
pub const SHORTEST: usize = 10;

impl Mark {
    // The mark that the record at a place begins with, if it begins with one. New tiles are the common ones, and are asked for first.
    pub fn at(reel: &[u8], at: usize) -> Option<Mark>
        requires { at + 10 ≤ length reel.now }
        ensures { StartIs reel.now at result }
    {
        match record::number(reel[at], reel[at + 1]) {
            PLAIN => Some(Mark::Plain),
            FLAGGED => Some(Mark::Flagged),
            OLD => Some(Mark::Old),
            _ => None,
        }
    }

    // Its two bytes, as a number.
    fn number(self) -> usize
        ensures { result ≡ mark_number self }
    {
        match self {
            Mark::Plain => PLAIN,
            Mark::Flagged => FLAGGED,
            Mark::Old => OLD,
        }
    }

    // How many bytes stand before the tile's.
    pub fn length(self) -> usize
        ensures { result ≡ header_length self }
    {
        match self {
            Mark::Flagged => 14,
            Mark::Plain | Mark::Old => SHORTEST,
        }
    }

    // The kind of the tile.
    pub fn kind(self) -> Kind
        ensures { result ≡ kind_of self }
    {
        match self {
            Mark::Plain | Mark::Flagged => Kind::New,
            Mark::Old => Kind::Old,
        }
    }
}

// What stands before a tile's bytes. Flags stand in a flagged record alone: in the others both are none.
#[derive(Clone, Copy)]
pub struct Header {
    pub mark: Mark,
    pub p: usize,
    pub l: usize,
    pub number: u32,
    pub first: Option<Line>,
    pub second: Option<Line>,
}

impl Header {
    // The header of the record at a place, whose mark is known, taken apart.
    pub fn read(reel: &[u8], at: usize, mark: Mark) -> Header
        requires start_is { StartIs reel.now at (Some mark) }
        requires mark_in_bounds { at + header_length mark ≤ length reel.now }
        ensures { HeaderAt reel.now at result }
    {
        Header {
            mark,
            p: record::number(reel[at + 2], reel[at + 3]),
            l: record::number(reel[at + 4], reel[at + 5]),
            number: record::long_number(reel[at + 6], reel[at + 7], reel[at + 8], reel[at + 9]),
            first: flag_at(reel, at, mark, 10),
            second: flag_at(reel, at, mark, 12),
        }
    }

    // Its bytes; of one without flags, the first ten alone count.
    pub fn bytes(self) -> [u8; 14]
        requires { Fits self }
        ensures { result ≡ header_bytes self }
    {
        let [mark_high, mark_low] = two_bytes(self.mark.number());
        let [p_high, p_low] = two_bytes(self.p);
        let [l_high, l_low] = two_bytes(self.l);
        let [first, second, third, fourth] = self.number.to_be_bytes();
        let [one_high, one_low] = two_bytes(flag::number(self.first));
        let [other_high, other_low] = two_bytes(flag::number(self.second));
        [
            mark_high, mark_low, p_high, p_low, l_high, l_low, first, second, third, fourth,
            one_high, one_low, other_high, other_low,
        ]
    }

    // May its record carry the flag: none, or, in a flagged record, a line of the tile?
    fn may_carry(self, flag: Option<Line>) -> bool
        ensures { Says result (Carried self.mark self.p flag) }
    {
        flag.is_none_or(|line| self.mark == Mark::Flagged && promise::has(self.p, line))
    }

    // May its record carry both its flags?
    pub fn carries(self) -> bool
        ensures { Says result (Carries self) }
    {
        self.may_carry(self.first) && self.may_carry(self.second)
    }
}

// The flag in two bytes of the header; a record without flags has none.
fn flag_at(reel: &[u8], at: usize, mark: Mark, offset: usize) -> Option<Line>
    requires mark_in_bounds { at + header_length mark ≤ length reel.now }
    requires offset_bound { offset + 2 ≤ 14 }
    ensures { result ≡ flag_at mark reel.now at offset }
{
    match mark {
        Mark::Flagged => {
            let from = at + offset;
            flag::read(record::number(reel[from], reel[from + 1]))
        }
        Mark::Plain | Mark::Old => None,
    }
}

// The two bytes of a number, the high one first.
fn two_bytes(n: usize) -> [u8; 2]
    requires { n < 65536 }
    ensures { result ≡ n / 256 ∷ n % 256 ∷ [] }
{
    (n as u16).to_be_bytes()
}
