// Runs a script of questions that it reads from standard input: it writes each line as it stands, and below a question the answer. What has
// to be answered is worked out by tests/expected_worked.py, without this program.
#![tactic(auto)]

mod ask;

use script::{answer, question};

// The number that the system knows standard input by.
const STANDARD_INPUT: i32 = 0;

fn main() {
    let mut script = io::large_buffer();
    let n = io::read_full(STANDARD_INPUT, &mut script);
    run(&script[..n]);
}

fn run(script: &[u8]) {
    for line in script.split_inclusive(|sign| *sign == b'\n') {
        let line = line.strip_suffix(b"\n").unwrap_or(line);
        answer::words(line);
        obey(line);
        answer::words(b"\n");
    }
}

// Does what a line asks, if it is a question. Behind its columns stand the bytes that the call may change, and behind a second colon those
// that it only reads.
fn obey(line: &[u8]) {
    let Some(asked) = question::read(line) else {
        return;
    };
    let signs = &line[question::COLUMNS..];
    let end = signs
        .iter()
        .position(|sign| *sign == b':')
        .unwrap_or(signs.len());
    let (held, lent) = line[question::COLUMNS - 1..].split_at(end + 1);
    let mut first = io::buffer();
    let mut second = io::buffer();
    let held = question::lay(held, &mut first);
    let lent = question::lay(lent, &mut second);
    answer::words(b"\n ");
    ask::ask(asked, held, lent);
    answer::bytes(held);
}
