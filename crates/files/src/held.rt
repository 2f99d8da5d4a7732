// A word of the command line, or a name: its bytes, in room for as many as are held (SPEC 12.1).
ghost use Rattle.io.specs.Counts.{IsPrefixLen};

use std::env::{Env, FillError};

// The first `length` of the room's bytes are the word.
#[derive(Clone, Copy)]
pub struct Word {
    room: [u8; 4096],
    length: usize,
    ghost within: { IsPrefixLen length room },
}

impl Word {
    // A word of no bytes.
    pub fn empty() -> Word {
        Word {
            room: io::buffer(),
            length: 0,
        }
    }

    // Reads the word at a place of the command line.
    pub fn read(&mut self, rt: &HostRuntime, place: usize) -> Result<(), FillError> {
        self.length = rt.arg(place, &mut self.room)?;
        Ok(())
    }

    // The word's bytes.
    pub fn bytes(&self) -> &[u8] {
        &self.room[..self.length]
    }

    // Puts bytes behind the word, as far as there is room.
    pub fn push(&mut self, more: &[u8]) {
        let start = self.length;
        let count = more.len().min(self.room.len() - start);
        self.room[start..start + count].copy_from_slice(&more[..count]);
        self.length = start + count;
    }
}
