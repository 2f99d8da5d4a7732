// A reel that is being read: its bytes together with a place. Each function takes the struct apart and asks the call on the slice and the
// place, which does the work; so each is a few steps long.
ghost use Rattle.std.specs.Prelude.{◌≡◌};
ghost use Rattle.reel.specs.Answer.{found_said};
ghost use Rattle.reel.specs.Calls.{NextTold, BytesTold};
ghost use Rattle.reel.specs.Reading.{Begins, MovesTo, SecondTold};

use crate::Found;

#[derive(Clone, Copy)]
pub struct Reader<'a> {
    pub reel: &'a [u8],
    pub at: usize,
}

impl<'a> Reader<'a> {
    // A reader at the reel's first byte.
    pub fn new(reel: &'a [u8]) -> Self
        ensures { Begins reel.entry result }
    {
        Self { reel, at: 0 }
    }

    // What stands at its place.
    pub fn found(self) -> Found
        ensures { NextTold self.entry.reel.now self.entry.at (found_said result) }
    {
        crate::next(self.reel, self.at)
    }

    // The bytes of the tile that stands there.
    pub fn bytes(self) -> &'a [u8]
        ensures { BytesTold self.entry.reel self.entry.at result }
    {
        crate::bytes(self.reel, self.at)
    }

    // Moved to the next record. At a refusal and at the end it stays.
    pub fn moved(self) -> Self
        ensures { MovesTo self.entry result }
    {
        Self {
            reel: self.reel,
            at: crate::after(self.reel, self.at),
        }
    }

    // Its place.
    pub fn place(self) -> usize
        ensures { result ≡ self.entry.at }
    {
        self.at
    }
}

// What stands behind a reel's first record: the end, where the reel is one tile's record and nothing else. It takes a plain slice, so
// whoever calls it needs to know nothing of a reader.
pub fn second(reel: &[u8]) -> Found
    ensures { SecondTold reel.now (found_said result) }
{
    Reader::new(reel).moved().found()
}
