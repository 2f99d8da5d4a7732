// The standard streams, where one of them is closed.
use std::fs::{File, OpenOptions};
use std::io::Error;
use std::os::fd::AsFd;

// The system's number for a descriptor under which no file is open.
const BAD_DESCRIPTOR: i32 = 9;

// What was opened in the place of standard streams that are closed. It is closed where it is let go.
#[derive(Drop)]
pub struct StandIns {
    pub input: Option<File>,
    pub output: Option<File>,
    pub error: Option<File>,
}

// Where a standard stream is closed, a file that is opened would take its number, and what is meant for the stream would go there. So such
// a number is taken by what can neither be read, in the place of input, nor written, in that of the outputs.
pub fn stand_in(rt: &HostRuntime) -> StandIns {
    let mut unread = OpenOptions::new();
    unread.append(true);
    let mut unwritten = OpenOptions::new();
    unwritten.read(true);
    let input = in_place_of(rt, rt.stdin(), &unread);
    let output = in_place_of(rt, rt.stdout(), &unwritten);
    let error = in_place_of(rt, rt.stderr(), &unwritten);
    StandIns {
        input,
        output,
        error,
    }
}

// What is opened in the place of a stream, if that is closed.
fn in_place_of<S: AsFd>(rt: &HostRuntime, stream: S, how: &OpenOptions) -> Option<File>
where
    S: Drop,
{
    if is_closed(&stream) {
        how.open(rt, "/dev/null").ok()
    } else {
        None
    }
}

// Is no file open under the stream's number?
pub fn is_closed<S: AsFd>(stream: &S) -> bool {
    match stream.as_fd().try_clone_to_owned() {
        Ok(_) => false,
        Err(error) => error.raw_os_error() == Some(BAD_DESCRIPTOR),
    }
}

// What the system says of a stream that is closed.
pub fn closed() -> Error {
    Error::from_raw_os_error(BAD_DESCRIPTOR)
}
