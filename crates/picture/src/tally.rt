// How many tiles of a reel there were, and how many of them were found in each state.
ghost use Rattle.std.specs.Prelude.{◌≡◌};
ghost use Rattle.code.specs.Says.{Says};
ghost use Rattle.promise.specs.Answer.{restore_said};
ghost use Rattle.picture.specs.Tally.{Below, no_tiles, counted};

use promise::{Repaired, Restored};
use size::Refusal;

#[derive(Clone, Copy, Default)]
pub struct Tally {
    pub tiles: usize,
    pub clean: usize,
    pub cells: usize,
    pub columns: usize,
    pub rows: usize,
    pub filled: usize,
    pub refused: usize,
    pub doubtful: usize,
}

impl Tally {
    // The tally before the first tile.
    pub fn new() -> Tally
        ensures { result ≡ no_tiles }
    {
        Tally::default()
    }

    // The tally with one more tile.
    #[tactic(auto, unfolding(crate::specs::Tally::counted))]
    pub fn with(self, state: Result<Restored, Refusal>) -> Tally
        requires { Below 18446744073709551615 self }
        ensures { result ≡ counted self (restore_said state) }
    {
        let mut new = self;
        new.tiles += 1;
        match state {
            Ok(Restored::Repaired(Repaired::Clean)) => new.clean += 1,
            Ok(Restored::Repaired(Repaired::Cell(_, _))) => new.cells += 1,
            Ok(Restored::Repaired(Repaired::Column(_))) => new.columns += 1,
            Ok(Restored::Repaired(Repaired::Row(_))) => new.rows += 1,
            Ok(Restored::Filled) => new.filled += 1,
            Err(Refusal::Doubtful) => new.doubtful += 1,
            Err(_) => new.refused += 1,
        }
        new
    }

    // Is each count below a bound?
    pub fn is_below(self, bound: usize) -> bool
        ensures { Says result (Below bound self) }
    {
        self.tiles < bound
            && self.clean < bound
            && self.cells < bound
            && self.columns < bound
            && self.rows < bound
            && self.filled < bound
            && self.refused < bound
            && self.doubtful < bound
    }
}
