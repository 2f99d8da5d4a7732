// Answers in words and numbers on standard output, each with a space before it. A write that fails is not told: the comparison with
// `stdout` then finds the text missing.
use code::{Kind, Line};
use promise::Repaired;
use reel::Found;
use sheet::Fault;
use size::Refusal;

// The number that the system knows standard output by. (What is written needs no runtime: a caller may have none.)
const STANDARD_OUTPUT: i32 = 1;

pub fn words(text: &[u8]) {
    io::write_all(STANDARD_OUTPUT, text);
}

pub fn count(word: &[u8], n: usize) {
    words(word);
    words(b" ");
    io::print_decimal(STANDARD_OUTPUT, n as u64);
}

pub fn bytes(list: &[u8]) {
    words(b":");
    for byte in list {
        words(b" ");
        io::print_hex(STANDARD_OUTPUT, u64::from(*byte), 2);
    }
}

pub fn refused(refusal: Refusal) {
    count(b" refused", size::number(refusal));
}

// Done, or why not.
pub fn outcome(outcome: Result<(), Refusal>) {
    match outcome {
        Ok(()) => words(b" done"),
        Err(refusal) => refused(refusal),
    }
}

pub fn repaired(repaired: Result<Repaired, Refusal>) {
    match repaired {
        Ok(Repaired::Clean) => words(b" clean"),
        Ok(Repaired::Cell(r, c)) => {
            count(b" cell", r);
            count(b"", c);
        }
        Ok(Repaired::Column(c)) => count(b" column", c),
        Ok(Repaired::Row(r)) => count(b" row", r),
        Err(refusal) => refused(refusal),
    }
}

// The number of records, or a refusal's number and the offset of the faulty record.
pub fn corrected(corrected: Result<usize, Fault>) {
    match corrected {
        Ok(n) => count(b" records", n),
        Err(fault) => {
            refused(fault.refusal);
            count(b" at", fault.at);
        }
    }
}

// A tile's kind, where it is old, its number, size and slope, its flags, where it has any, and where its bytes begin; the end; or a
// refusal's number and offset.
pub fn found(found: Found) {
    match found {
        Found::Tile(tile) => {
            if tile.kind == Kind::Old {
                words(b" old");
            }
            count(b" tile", tile.number);
            count(b"", tile.p);
            count(b"", tile.l);
            flag(b" first flag", tile.first);
            flag(b" second flag", tile.second);
            count(b" at", tile.at);
        }
        Found::End => words(b" end"),
        Found::Refused(refusal, at) => {
            refused(refusal);
            count(b" at", at);
        }
    }
}

// Which flag it is, and its line; of none, nothing.
fn flag(name: &[u8], flag: Option<Line>) {
    if let Some(lost) = flag {
        words(name);
        line(lost);
    }
}

fn line(line: Line) {
    match line {
        Line::Row(r) => count(b" row", r),
        Line::Column(c) => count(b" column", c),
    }
}
