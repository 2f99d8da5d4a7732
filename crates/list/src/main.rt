// Lists a reel that it reads from standard input.
#![tactic(auto)]

ghost use Rattle.std.specs.Prelude.{◌≡◌, ◌≤◌, length, IfOk};

use listing::STANDARD_OUTPUT;
use std::io::{Read, Stdin};

// The number that the system knows standard error by.
const STANDARD_ERROR: i32 = 2;

// Why the input is not read as a whole: it has more bytes than a reel may have, or a read failed.
#[derive(Clone, Copy)]
enum Unread {
    TooLong,
    Failed,
}

// Room for one byte more than a reel may have.
fn room() -> [u8; 65537]
    ensures { 65537 ≡ length result }
{
    [0; 65537]
}

// Reads the input until it ends, and answers how many bytes it has; a read may fail, or there may be no room left. (A loop by hand: how
// much a read brings is the system's to say, `read_exact` would fail where the input is shorter, and `read_to_end` wants a heap.)
fn read(mut input: Stdin, room: &mut [u8]) -> Result<usize, Unread>
    ensures { IfOk result (λ n. n ≤ length room.new) }
{
    let mut n = 0;
    while n < room.len() {
        let Ok(more) = input.read(&mut room[n..]) else {
            return Err(Unread::Failed);
        };
        if more == 0 {
            return Ok(n);
        }
        n += more;
    }
    Err(Unread::TooLong)
}

// Words on standard error. Where they cannot be written either, nobody is left to tell.
fn complain(words: &[u8]) {
    io::write_all(STANDARD_ERROR, words);
}

// Says so where something was not written, as `listing::print` and `io::write_all` answer it.
fn report(is_written: bool) {
    if !is_written {
        complain(b"counterfrost-list: the listing could not be written\n");
    }
}

fn main(rt: HostRuntime) {
    let mut bytes = room();
    match read(rt.stdin(), &mut bytes) {
        Ok(n) => report(listing::print(&bytes[..n])),
        Err(Unread::TooLong) => report(io::write_all(STANDARD_OUTPUT, b"too long\n")),
        Err(Unread::Failed) => complain(b"counterfrost-list: the input could not be read\n"),
    }
}
