// A reel that is walked by windows, one behind the other, each of which begins where a record does (SPEC 12.9).
use crate::input::{Input, Source};
use crate::new::NewReel;
use crate::progress::Clock;
use crate::told::{Failure, Told};
use crate::{input, say};
use size::Refusal;
use std::fs::File;
use std::io::Write;

// The bytes of a window: four times the largest record and a little less.
pub const WINDOW: usize = 262144;

// Where a walk stopped, and why.
#[derive(Clone, Copy)]
pub struct Stop {
    pub refusal: Refusal,
    pub offset: usize,
}

// The reel, and the new reel to which what is passed goes, if there is one; the window, where it begins on the reel, how much it holds, and
// whether the reel ends with it; the place in it to which the walk has come; and when the work was last told of.
#[derive(Drop)]
pub struct Windows<'r, 'w> {
    reel: &'r Input<'r>,
    new: Option<&'r NewReel<'r>>,
    room: &'w mut [u8],
    held: usize,
    pub offset: usize,
    pub is_last: bool,
    pub place: usize,
    pub clock: Clock,
}

impl<'r, 'w> Windows<'r, 'w> {
    // The first window of a reel. If it cannot be read, that is told.
    pub fn begun(
        rt: &HostRuntime,
        reel: &'r Input<'r>,
        new: Option<&'r NewReel<'r>>,
        room: &'w mut [u8],
        clock: Clock,
    ) -> Result<Windows<'r, 'w>, Told> {
        match reel.source.fill(room, 0) {
            Ok(held) => Ok(Windows {
                reel,
                new,
                room,
                held: held.count,
                offset: 0,
                is_last: held.is_last,
                place: 0,
                clock,
            }),
            Err(error) => Err(input::failed(rt, reel.name, error)),
        }
    }

    // The name of the reel.
    pub fn name(&self) -> &[u8] {
        self.reel.name
    }

    // What the window holds. The room is lent and `held` a number beside it, so nothing but this bounds it by the room.
    pub fn window(&mut self) -> &mut [u8] {
        let held = say::at_most(self.held, self.room);
        &mut self.room[..held]
    }

    // Where on the reel a place of the window is.
    pub fn offset_of(&self, place: usize) -> usize {
        self.offset.saturating_add(place)
    }

    // A walk that stops at a place of the window.
    pub fn stop(&self, refusal: Refusal, place: usize) -> Stop {
        Stop {
            refusal,
            offset: self.offset_of(place),
        }
    }

    // Goes on to the window that begins where the walk has come to, behind so many tiles. What was passed goes to the new reel.
    pub fn onward(&mut self, rt: &HostRuntime, tiles: usize) -> Result<(), Failure> {
        let place = self.place;
        self.copied(place)?;
        let offset = self.offset_of(place);
        self.clock.tell(rt, tiles, offset);
        let left = window::move_down(self.window(), place);
        let held = self
            .reel
            .source
            .fill(self.room, left)
            .map_err(Failure::Reel)?;
        self.offset = offset;
        self.held = held.count;
        self.is_last = held.is_last;
        self.place = 0;
        Ok(())
    }

    // The walk is over: what the window holds goes to the new reel, and what is left of the reel behind it.
    pub fn finish(&mut self) -> Result<(), Failure> {
        let held = self.held;
        self.copied(held)?;
        match self.new {
            Some(new) if !self.is_last => copy(&self.reel.source, &new.file, self.room),
            _ => Ok(()),
        }
    }

    // The first bytes of the window go to the new reel, if there is one. Whoever walks says how many, so nothing bounds them but the room.
    fn copied(&self, count: usize) -> Result<(), Failure> {
        match self.new {
            Some(new) => {
                let count = say::at_most(count, self.room);
                new.write(&self.room[..count]).map_err(Failure::New)
            }
            None => Ok(()),
        }
    }

    // The work along the windows is over: what was told of it is taken away. If it cannot go on, it is told why.
    pub fn ended<T: Drop>(&self, rt: &HostRuntime, work: Result<T, Failure>) -> Result<T, Told> {
        self.clock.clear(rt);
        work.map_err(|failure| self.told(rt, failure))
    }

    // Tells why the work cannot go on.
    pub fn told(&self, rt: &HostRuntime, failure: Failure) -> Told {
        let name = self.reel.name;
        match self.new {
            Some(new) => failure.told(rt, name, new.part.bytes()),
            None => failure.told(rt, name, name),
        }
    }
}

// Copies all that is left of what is read. How much that is only the system knows, and a loop without an end needs the handle Wait, which
// no function here has: so the turns are counted.
pub fn copy(from: &Source, to: &File, room: &mut [u8]) -> Result<(), Failure> {
    let mut to = to;
    for _ in 0..u64::MAX {
        let held = from.fill(room, 0).map_err(Failure::Reel)?;
        to.write_all(&room[..held.count]).map_err(Failure::New)?;
        if held.is_last {
            return Ok(());
        }
    }
    Err(Failure::TooLong)
}
