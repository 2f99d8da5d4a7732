// What is read: a reel, a sheet or a text, from standard input or from a file that was opened by its name.
ghost use Rattle.std.specs.Prelude.{IfOk};
ghost use Rattle.io.specs.Counts.{IsPrefixLen};

use crate::told::Told;
use crate::{asked, say, streams};
use std::fs;
use std::fs::{File, Metadata};
use std::io::{Error, ErrorKind, Read, Seek, SeekFrom, Stdin};
use std::os::fd::AsRawFd;

// The name under which the system has standard input.
pub const STANDARD_INPUT: &str = "/proc/self/fd/0";

// The most bytes that the system takes for a name.
const LONGEST_NAME: usize = 4095;

// Where the bytes come from.
#[derive(Drop)]
pub enum Source {
    Standard(Stdin),
    Named(File),
}

// What is read, under its name.
#[derive(Drop)]
pub struct Input<'a> {
    pub name: &'a [u8],
    pub source: Source,
}

// So many bytes are held of what was read, and it ends with them or does not.
#[derive(Clone, Copy)]
pub struct Held {
    pub count: usize,
    pub is_last: bool,
}

// Is the name a hyphen, which stands for standard input?
pub fn is_standard(name: &[u8]) -> bool {
    name == b"-".as_slice()
}

// A name as the system is asked by it.
pub fn path(name: &[u8]) -> Result<&str, Error> {
    if name.len() > LONGEST_NAME {
        return Err(asked::name_too_long());
    }
    match str::from_utf8(name) {
        Ok(text) => Ok(text),
        Err(_) => Err(Error::new(ErrorKind::InvalidFilename, "no UTF-8")),
    }
}

// What the system says of a file that could not be read.
pub fn failed(rt: &HostRuntime, name: &[u8], error: Error) -> Told {
    let told_of = if is_standard(name) {
        b"standard input"
    } else {
        name
    };
    say::failed(rt, told_of, error)
}

impl Source {
    // Opens what a name stands for.
    fn open(rt: &HostRuntime, name: &[u8]) -> Result<Source, Error> {
        if !is_standard(name) {
            let file = File::open(rt, path(name)?)?;
            return Ok(Source::Named(file));
        }
        if streams::is_closed(&rt.stdin()) {
            return Err(streams::closed());
        }
        Ok(Source::Standard(rt.stdin()))
    }

    // Reads once.
    fn read(&self, room: &mut [u8]) -> Result<usize, Error>
        ensures { IfOk result (λ n. IsPrefixLen n room.new) }
    {
        match self {
            Source::Standard(stdin) => {
                let mut stdin = *stdin;
                stdin.read(room)
            }
            Source::Named(file) => {
                let mut file = file;
                file.read(room)
            }
        }
    }

    // Reads behind the first bytes of a room until it is full, the input ends or a read fails. Each turn goes on by as many bytes as came,
    // which no range and no iterator knows beforehand.
    pub fn fill(&self, room: &mut [u8], behind: usize) -> Result<Held, Error>
        ensures { IfOk result (λ held. IsPrefixLen held.count room.new) }
    {
        let mut count = behind.min(room.len());
        while count < room.len() {
            let more = self.read(&mut room[count..])?;
            if more == 0 {
                return Ok(Held {
                    count,
                    is_last: true,
                });
            }
            count += more;
        }
        Ok(Held {
            count,
            is_last: false,
        })
    }

    // What the system tells of the file that is read.
    pub fn metadata(&self, rt: &HostRuntime) -> Result<Metadata, Error> {
        match self {
            Source::Standard(_) => fs::metadata(rt, STANDARD_INPUT),
            Source::Named(file) => file.metadata(),
        }
    }

    // The number under which it is open.
    pub fn number(&self) -> i32 {
        match self {
            Source::Standard(stdin) => stdin.as_raw_fd(),
            Source::Named(file) => file.as_raw_fd(),
        }
    }

    // Goes back to a place. Where that fails, what is read next tells of it.
    pub fn back(&self, place: u64) {
        match self {
            Source::Standard(_) => {}
            Source::Named(file) => {
                let mut file = file;
                let _ = file.seek(SeekFrom::Start(place));
            }
        }
    }
}

impl<'a> Input<'a> {
    // Opens what a name stands for. If that fails, it is told.
    pub fn open(rt: &HostRuntime, name: &'a [u8]) -> Result<Input<'a>, Told> {
        match Source::open(rt, name) {
            Ok(source) => Ok(Input { name, source }),
            Err(error) => Err(failed(rt, name, error)),
        }
    }

    // Reads what there is room for. If that fails, it is told.
    pub fn read<'r>(&self, rt: &HostRuntime, room: &'r mut [u8]) -> Result<&'r [u8], Told> {
        match self.source.fill(room, 0) {
            Ok(held) => Ok(&room[..held.count]),
            Err(error) => Err(failed(rt, self.name, error)),
        }
    }
}
