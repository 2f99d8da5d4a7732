// The exit status, by what was found.
ghost use Rattle.size.specs.Refusal.{number_of};
ghost use Rattle.code.specs.Says.{Says};
ghost use Rattle.show.specs.Status.{AllWell, StatusIs, FillStatusIs, code};

use crate::Tally;
use size::Refusal;

// How the command ends (SPEC 12.5): nothing is wrong; something is, on the reel; or something is with the call, or the system refused.
#[derive(Clone, Copy, Debug, PartialEq, Eq)]
pub enum Status {
    Well,
    Wrong,
    Failed,
}

impl From<Status> for i32 {
    ghost use Rattle.std.specs.Prelude.{◌≡◌};

    ghost from_gives = { λ status number. number ≡ code status };

    fn from(status: Status) -> i32 {
        match status {
            Status::Well => 0,
            Status::Wrong => 1,
            Status::Failed => 2,
        }
    }
}

// Is all well with the tiles: is each clean, or where they were to be mended, is none refused?
fn is_well(tally: Tally, mended: bool) -> bool
    ensures { Says result (AllWell mended tally) }
{
    if mended {
        tally.refused == 0 && tally.doubtful == 0
    } else {
        tally.clean == tally.tiles
    }
}

// The status of a whole reel: whether its walk came to the end, and whether its tiles were to be mended. (Two flags, since this is public
// and `StatusIs` takes both as they are.)
pub fn of_reel(tally: Tally, ended: bool, mended: bool) -> Status
    ensures { StatusIs mended tally ended result }
{
    if !ended {
        return Status::Wrong;
    }
    if is_well(tally, mended) {
        Status::Well
    } else {
        Status::Wrong
    }
}

// The status of a fill that is refused: a line that the tile does not have was asked for wrongly.
pub fn of_fill(refusal: Refusal) -> Status
    ensures { FillStatusIs (number_of refusal) result }
{
    match refusal {
        Refusal::BadPlace => Status::Failed,
        _ => Status::Wrong,
    }
}
