// Whether what is there under the name of a new reel is the reel that is read.
use crate::input;
use crate::input::Source;
use crate::new::Target;
use std::fmt::InlineText;
use std::fs;
use std::fs::{File, OpenOptions};
use std::io::{Error, ErrorKind};
use std::os::fd::AsRawFd;
use std::os::unix::fs::MetadataExt;
use std::path::PathBuf;

// Is what is there under the name the reel that is read? Where the system does not tell, it may be. A pipe is opened for reading and
// writing, which does not wait; for reading alone only if it is to be replaced. What cannot be opened may be the reel only if that came
// opened.
pub fn is_reel(rt: &HostRuntime, reel: &Source, target: Target) -> bool {
    match opened(rt, target) {
        Ok(file) => is_same(rt, reel, &file),
        Err(_) => match reel {
            Source::Standard(_) => true,
            Source::Named(_) => false,
        },
    }
}

// Opens what is there under the name.
fn opened(rt: &HostRuntime, target: Target) -> Result<File, Error> {
    let path = input::path(target.name)?;
    let mut both = OpenOptions::new();
    both.read(true).write(true);
    match both.open(rt, path) {
        Err(_) if target.force => File::open(rt, path),
        opened => opened,
    }
}

// Does the system know the reel and a file by the same name? Where it does not tell the reel's, it may.
fn is_same(rt: &HostRuntime, reel: &Source, file: &File) -> bool {
    let one = name_of(rt, reel.number());
    let other = name_of(rt, file.as_raw_fd());
    match (one, other) {
        (Ok(one), Ok(other)) => one.as_str() == other.as_str(),
        (Ok(_), Err(_)) => false,
        (Err(error), Ok(_)) => !is_no_text(error),
        (Err(error), Err(other)) => {
            if is_no_text(error) {
                is_no_text(other) && is_one(rt, reel, file)
            } else {
                true
            }
        }
    }
}

// The name by which the system knows what is open under a number.
fn name_of(rt: &HostRuntime, number: i32) -> Result<PathBuf, Error> {
    let link = InlineText::<32>::of(format_args!("/proc/self/fd/{number}"));
    fs::read_link(rt, link.as_str())
}

// Is there a name, but none that is UTF-8?
fn is_no_text(error: Error) -> bool {
    error.kind() == ErrorKind::InvalidFilename
}

// Are the reel and a file one file? Where the system does not tell, they may be.
fn is_one(rt: &HostRuntime, reel: &Source, file: &File) -> bool {
    match (reel.metadata(rt), file.metadata()) {
        (Ok(one), Ok(other)) => one.dev() == other.dev() && one.ino() == other.ino(),
        _ => true,
    }
}
