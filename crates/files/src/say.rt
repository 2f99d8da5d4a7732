// What is said on standard error. Every line begins with the command's name. Where it cannot be written either, nobody is left to tell.
// (A message goes out in pieces, a write for each. A `write!` would put them together, and less would be said where the system has no room
// for all of it.)
ghost use Rattle.io.specs.Counts.{IsPrefixLen};

use crate::told::Told;
use lettering::line;
use std::fmt::InlineText;
use std::io::Error;

// Words as they are.
pub fn words(rt: &HostRuntime, said: &[u8]) {
    let _ = rt.stderr().write_all(said);
}

// A number.
pub fn number(rt: &HostRuntime, n: usize) {
    words(rt, line::digits(n).text());
}

// The beginning of a line.
pub fn name(rt: &HostRuntime) {
    words(rt, b"counterfrost: ");
}

// A whole line on what is wrong.
pub fn line(rt: &HostRuntime, said: &[u8]) -> Told {
    name(rt);
    words(rt, said);
    words(rt, b"\n");
    Told
}

// A line on what is wrong with a word or a file. Its name is written as it is, since it may be no UTF-8.
pub fn about(rt: &HostRuntime, what: &[u8], said: &[u8]) -> Told {
    name(rt);
    words(rt, what);
    words(rt, said);
    words(rt, b"\n");
    Told
}

// Why the system refused, in its own words.
pub fn failed(rt: &HostRuntime, what: &[u8], error: Error) -> Told {
    let said = InlineText::<256>::of(error);
    name(rt);
    words(rt, what);
    words(rt, b": ");
    words(rt, own_words(said.as_str()).as_bytes());
    words(rt, b"\n");
    Told
}

// Why the output could not be written.
pub fn output_failed(rt: &HostRuntime, error: Error) -> Told {
    failed(rt, b"standard output", error)
}

// The system's own words for an error: without the error's number, which stands behind them.
fn own_words(said: &str) -> &str {
    said.split_once(" (os error ")
        .map_or(said, |(words, _)| words)
}

// A line of a listing, behind the command's name.
pub fn listed(rt: &HostRuntime, line: line::Line) {
    name(rt);
    words(rt, line.text());
}

// Prints a line of a listing, or says that it could not be written.
pub fn print_line(rt: &HostRuntime, line: line::Line) -> Result<(), Told> {
    print(rt, line.text())
}

// Prints bytes, or says that they could not be written.
pub fn print(rt: &HostRuntime, bytes: &[u8]) -> Result<(), Told> {
    arrived(rt, rt.stdout().write_all(bytes))
}

// Says whether the output arrived.
pub fn arrived(rt: &HostRuntime, written: Result<(), Error>) -> Result<(), Told> {
    written.map_err(|error| output_failed(rt, error))
}

// A count that lies within the bytes.
pub fn at_most(n: usize, all: &[u8]) -> usize
    ensures { IsPrefixLen result all.now }
{
    n.min(all.len())
}
