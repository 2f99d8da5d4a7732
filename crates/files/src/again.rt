// A reel that is read a second time, as for a drawing: first its squares are counted.
use crate::input::{Input, STANDARD_INPUT, Source};
use crate::told::Told;
use crate::{input, say, windows};
use std::fmt::InlineText;
use std::fs;
use std::fs::{File, OpenOptions};
use std::io::{Error, ErrorKind, Read, Seek, SeekFrom, Stdin};
use std::os::unix::fs::{FileTypeExt, OpenOptionsExt};
use std::random::RandomSource;

// How what is read can be read a second time: from the place where it stands, to which it is set back; or by another reader, which stands
// at the same place.
#[derive(Drop)]
pub enum Second<'a> {
    SetBack(u64),
    Other(Input<'a>),
}

// How a reel can be read a second time, where it can be. If it cannot be read at all, that is told.
pub fn how<'a>(rt: &HostRuntime, reel: &Input<'a>) -> Result<Option<Second<'a>>, Told> {
    let name = reel.name;
    match &reel.source {
        Source::Standard(stdin) => match second_standard(rt, *stdin) {
            Ok(Some(file)) => Ok(Some(Second::Other(Input {
                name,
                source: Source::Named(file),
            }))),
            Ok(None) => Ok(None),
            Err(error) => Err(input::failed(rt, name, error)),
        },
        Source::Named(file) => {
            let mut file = file;
            match file.stream_position() {
                Ok(place) => Ok(Some(Second::SetBack(place))),
                Err(_) => Ok(None),
            }
        }
    }
}

// Standard input cannot be set back, but it can be opened by another name. That may wait for a writer if it is a pipe, and it may give what
// standard input is not open for; so it is asked first whether it is a pipe, and whether it can be read.
fn second_standard(rt: &HostRuntime, stdin: Stdin) -> Result<Option<File>, Error> {
    let mut stdin = stdin;
    stdin.read(&mut [])?;
    Ok(opened_again(rt).ok())
}

// Opens what standard input reads, and goes to the place where that stands.
fn opened_again(rt: &HostRuntime) -> Result<File, Error> {
    let found = fs::metadata(rt, STANDARD_INPUT)?;
    if found.file_type().is_fifo() {
        return Err(Error::from(ErrorKind::NotSeekable));
    }
    let place = standard_place(rt)?;
    let mut file = File::open(rt, STANDARD_INPUT)?;
    file.seek(SeekFrom::Start(place))?;
    Ok(file)
}

// The place where standard input stands, as the system tells it: a line of its own, which comes first.
fn standard_place(rt: &HostRuntime) -> Result<u64, Error> {
    let mut text = io::buffer();
    let mut file = File::open(rt, "/proc/self/fdinfo/0")?;
    let n = file.read(&mut text)?;
    place_told(&text[..n]).ok_or(Error::from(ErrorKind::InvalidData))
}

// The number in a line `pos:`.
fn place_told(text: &[u8]) -> Option<u64> {
    let text = str::from_utf8(text).ok()?;
    let line = text.lines().next()?;
    let number = line.strip_prefix("pos:")?;
    number.trim().parse::<u64>().ok()
}

// What is said to have failed where a file below /tmp could not be made.
const UNNAMED: &[u8] = b"/tmp/counterfrost-XXXXXX";

// How often another name is tried.
const TRIES: usize = 100;

// A file that has no name any more, and the name that it had.
#[derive(Drop)]
struct Unnamed {
    file: File,
    path: InlineText<32>,
}

// Keeps what can be read but once in a file that has no name any more, and answers it, at its first byte; or says what failed. Its room is
// free again when that is done.
#[inline(never)]
pub fn kept<'a>(rt: &HostRuntime, reel: &Input<'a>) -> Result<Input<'a>, Told> {
    let made = match make_unnamed(rt) {
        Ok(made) => made,
        Err(error) => return Err(say::failed(rt, UNNAMED, error)),
    };
    let Unnamed { file, path } = made;
    let mut room = [0; windows::WINDOW];
    if let Err(failure) = windows::copy(&reel.source, &file, &mut room) {
        return Err(failure.told(rt, reel.name, path.as_str().as_bytes()));
    }
    let source = Source::Named(file);
    source.back(0);
    Ok(Input {
        name: reel.name,
        source,
    })
}

// Makes a file that only this user may read, and takes its name away.
fn make_unnamed(rt: &HostRuntime) -> Result<Unnamed, Error> {
    let mut how = OpenOptions::new();
    how.read(true).write(true).create_new(true).mode(0o600);
    for _ in 0..TRIES {
        let path = drawn_name(rt)?;
        match how.open(rt, path.as_str()) {
            Ok(file) => {
                let _ = fs::remove_file(rt, path.as_str());
                return Ok(Unnamed { file, path });
            }
            Err(error) => {
                if error.kind() != ErrorKind::AlreadyExists {
                    return Err(error);
                }
            }
        }
    }
    Err(Error::from(ErrorKind::AlreadyExists))
}

// A name that is drawn by lot.
fn drawn_name(rt: &HostRuntime) -> Result<InlineText<32>, Error> {
    let mut drawn = [0u8; 4];
    rt.fill_bytes(&mut drawn)?;
    let number = u32::from_le_bytes(drawn);
    Ok(InlineText::of(format_args!("/tmp/counterfrost-{number:08x}")))
}
