// A line of the script: its columns, and its bytes. Nothing is asked of the signs; others than digits are read as some digit.
ghost use Rattle.std.specs.Prelude.{◌+◌, ◌≤◌, ◌<◌, length, IfSome};

use code::{Kind, Line};

// How many columns stand before the bytes. The last of them has the colon by which a question is known.
pub const COLUMNS: usize = 24;

// What a question holds for a call: the first letter of its name, a tile's kind, two numbers, and two lines of a tile.
#[derive(Clone, Copy)]
pub struct Question {
    pub name: u8,
    pub kind: Kind,
    pub p: usize,
    pub l: usize,
    pub first: Line,
    pub second: Line,
}

// What the columns of a line tell, whether it asks a question or not; of one that is too short, nothing.
pub fn numbers(line: &[u8]) -> Question {
    if line.len() < COLUMNS {
        return Question {
            name: b' ',
            kind: Kind::New,
            p: 0,
            l: 0,
            first: Line::Row(0),
            second: Line::Row(0),
        };
    }
    Question {
        name: line[0],
        kind: kind(line[7]),
        p: number(line, 8),
        l: number(line, 12),
        first: flagged(line, 16),
        second: flagged(line, 20),
    }
}

// The question that a line asks, by its columns, if it asks one.
pub fn read(line: &[u8]) -> Option<Question>
    ensures { IfSome result (λ question. 24 ≤ length line.now) }
{
    if line.len() < COLUMNS || line[COLUMNS - 1] != b':' {
        return None;
    }
    Some(numbers(line))
}

// The kind of a tile: o for an old one.
fn kind(sign: u8) -> Kind {
    if sign == b'o' { Kind::Old } else { Kind::New }
}

// The decimal number in three columns. A space counts as 0.
fn number(line: &[u8], at: usize) -> usize
    requires { at + 2 < length line.now }
{
    digit(line[at]) * 100 + digit(line[at + 1]) * 10 + digit(line[at + 2])
}

fn digit(sign: u8) -> usize
    ensures { result < 16 }
{
    (sign % 16) as usize
}

// The line of a tile in three columns: r or c, and its number. Capital letters count down from the largest number.
fn flagged(line: &[u8], at: usize) -> Line
    requires { at + 2 < length line.now }
{
    let n = digit(line[at + 1]) * 10 + digit(line[at + 2]);
    match line[at] {
        b'r' => Line::Row(n),
        b'R' => Line::Row(usize::MAX - n),
        b'C' => Line::Column(usize::MAX - n),
        _ => Line::Column(n),
    }
}

// Lays the bytes of a text into `out`, as many as it has room for, and gives the part that holds them. Each has two hexadecimal digits, and
// one sign before them.
pub fn lay<'a>(text: &[u8], out: &'a mut [u8]) -> &'a mut [u8] {
    let count = out.len().min(text.len() / 3);
    for (byte, signs) in out.iter_mut().zip(text.chunks_exact(3)) {
        *byte = hexadecimal(signs[1]) * 16 + hexadecimal(signs[2]);
    }
    &mut out[..count]
}

// A hexadecimal digit. Of the letters a to f the last four bits are 1 to 6, and the bits above them 6.
fn hexadecimal(sign: u8) -> u8
    ensures { result < 16 }
{
    (sign % 16 + sign / 64 * 9) % 16
}
