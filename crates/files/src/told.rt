// That something went wrong, and that it was told.
use crate::{input, say};
use show::status::Status;
use std::io::Error;

// What is wrong with the call, or what the system refused, was told on standard error. The status for that is 2 (SPEC 12.5).
#[derive(Clone, Copy, Debug, PartialEq, Eq)]
pub struct Told;

impl From<Told> for Status {
    ghost use Rattle.std.specs.Prelude.{◌≡◌};
    ghost use Rattle.show.specs.declared.status.Status.TheVariants.{Failed};

    ghost from_gives = { λ _ status. status ≡ Failed };

    fn from(_told: Told) -> Status {
        Status::Failed
    }
}

// Why the work on a reel cannot go on: its bytes, those of the new reel or those of the output could not be moved, or it has more bytes or
// tiles than can be counted.
#[derive(Clone, Copy)]
pub enum Failure {
    Reel(Error),
    New(Error),
    Output(Error),
    TooLong,
}

impl Failure {
    // Tells it of a reel and a new reel that have these names.
    pub fn told(self, rt: &HostRuntime, reel: &[u8], new: &[u8]) -> Told {
        match self {
            Failure::Reel(error) => input::failed(rt, reel, error),
            Failure::New(error) => say::failed(rt, new, error),
            Failure::Output(error) => say::output_failed(rt, error),
            Failure::TooLong => too_long(rt, reel),
        }
    }
}

// Says that a reel has more bytes or tiles than can be counted.
pub fn too_long(rt: &HostRuntime, reel: &[u8]) -> Told {
    say::about(rt, reel, b": too long")
}
