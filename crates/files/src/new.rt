// The new reel. It is written beside, under its name with `.part` behind it, and gets its name when it is whole: a run that is interrupted
// or refused leaves no half reel under that name. Nothing that was there before is touched, but NEW itself where that is asked for.
use crate::held::Word;
use crate::input::Source;
use crate::told::Told;
use crate::{input, same, say};
use std::fs;
use std::fs::{File, OpenOptions};
use std::io::{Error, ErrorKind, Write};
use std::os::fd::AsRawFd;

// The name that a new reel is to get, and whether it may take that from another file.
#[derive(Clone, Copy)]
pub struct Target<'a> {
    pub name: &'a [u8],
    pub force: bool,
}

// The file that is written, the name that it has meanwhile, and what it is to become.
#[derive(Drop)]
pub struct NewReel<'a> {
    pub file: File,
    pub part: Word,
    target: Target<'a>,
}

// Makes a new reel by some work on it, beside a reel that is read, if there is one. It is kept where the work is done, and taken away where
// that failed.
pub fn made<T: Drop, E: Drop + From<Told>, F: FnOnce(&NewReel) -> Result<T, E>>(
    rt: &HostRuntime,
    reel: Option<&Source>,
    target: Target,
    work: F,
) -> Result<T, E>
    requires { F.IsAlwaysCallable work }
{
    let new = NewReel::begun(rt, reel, target)?;
    match work(&new) {
        Ok(done) => {
            new.keep(rt)?;
            Ok(done)
        }
        Err(error) => {
            new.remove(rt);
            Err(error)
        }
    }
}

impl<'a> NewReel<'a> {
    // Begins the new reel, beside a reel that is read. If it cannot be made, that is said.
    fn begun(
        rt: &HostRuntime,
        reel: Option<&Source>,
        target: Target<'a>,
    ) -> Result<NewReel<'a>, Told> {
        let mut part = Word::empty();
        part.push(target.name);
        part.push(b".part");
        may_be_made(rt, reel, target)?;
        let file = create(rt, part.bytes())?;
        Ok(NewReel { file, part, target })
    }

    // Writes bytes behind what the new reel has.
    pub fn write(&self, bytes: &[u8]) -> Result<(), Error> {
        let mut file = &self.file;
        file.write_all(bytes)
    }

    // Gives the new reel its name, when all of it is on the device. If that fails, it is said, and the new reel is taken away.
    fn keep(self, rt: &HostRuntime) -> Result<(), Told> {
        let NewReel { file, part, target } = self;
        let named = named(rt, file, part.bytes(), target);
        if named.is_err() {
            take_away(rt, part.bytes());
        }
        named
    }

    // Takes away what was written so far.
    fn remove(self, rt: &HostRuntime) {
        let NewReel { file, part, .. } = self;
        drop(file);
        take_away(rt, part.bytes());
    }
}

// May the new reel have its name? If not, it is said why. There is no `reel` where none is read.
fn may_be_made(rt: &HostRuntime, reel: Option<&Source>, target: Target) -> Result<(), Told> {
    let Target { name, force } = target;
    if input::is_standard(name) {
        return Err(say::about(rt, name, b": no name for a new reel"));
    }
    if !is_there(rt, name) {
        return Ok(());
    }
    if let Some(reel) = reel {
        if same::is_reel(rt, reel, target) {
            return Err(say::about(rt, name, b": the reel itself"));
        }
    }
    if !force {
        return Err(is_taken(rt, name));
    }
    Ok(())
}

// Is something there under the name, a link that leads nowhere too? Nothing is opened for that. Where the system says something else, who
// makes the file will be told.
fn is_there(rt: &HostRuntime, name: &[u8]) -> bool {
    match input::path(name) {
        Ok(path) => fs::symlink_metadata(rt, path).is_ok(),
        Err(_) => false,
    }
}

// Says that something is there under the name.
fn is_taken(rt: &HostRuntime, name: &[u8]) -> Told {
    say::about(rt, name, b": exists already; --force replaces it")
}

// Makes the file of a new reel, which is not there yet. It may not take the number of a standard stream that is closed.
fn create(rt: &HostRuntime, part: &[u8]) -> Result<File, Told> {
    match create_new(rt, part) {
        Ok(file) if file.as_raw_fd() < 3 => {
            take_away(rt, part);
            Err(say::line(rt, b"standard output: closed"))
        }
        Ok(file) => Ok(file),
        Err(error) => Err(not_made(rt, part, error)),
    }
}

fn create_new(rt: &HostRuntime, part: &[u8]) -> Result<File, Error> {
    let path = input::path(part)?;
    OpenOptions::new()
        .write(true)
        .create_new(true)
        .open(rt, path)
}

// Says why the new reel could not be made.
fn not_made(rt: &HostRuntime, part: &[u8], error: Error) -> Told {
    if error.kind() == ErrorKind::AlreadyExists {
        say::about(
            rt,
            part,
            b": exists already; it is another run's, or was left by one that was interrupted",
        )
    } else {
        say::failed(rt, part, error)
    }
}

// The file of a new reel gets its name, if that is still free or may be taken.
fn named(rt: &HostRuntime, file: File, part: &[u8], target: Target) -> Result<(), Told> {
    if let Err(error) = file.sync_all() {
        return Err(say::failed(rt, part, error));
    }
    drop(file);
    let Target { name, force } = target;
    if !force && is_there(rt, name) {
        return Err(is_taken(rt, name));
    }
    rename(rt, part, name).map_err(|error| say::failed(rt, name, error))
}

// Gives a file another name.
fn rename(rt: &HostRuntime, from: &[u8], to: &[u8]) -> Result<(), Error> {
    fs::rename(rt, input::path(from)?, input::path(to)?)
}

// Takes a file away. Where that fails it stays, and nobody is told.
fn take_away(rt: &HostRuntime, name: &[u8]) {
    if let Ok(path) = input::path(name) {
        let _ = fs::remove_file(rt, path);
    }
}
