// What is told of the work on a terminal, when a second has gone by. Where standard error is no terminal, nothing is told.
use crate::say;
use std::io::IsTerminal;
use std::time::Clock as SystemClock;

// What stands on the terminal: nothing yet; nothing, but a second has begun since; or how far the work is, which is taken away in the
// end.
#[derive(Clone, Copy, Debug, PartialEq, Eq)]
enum Progress {
    Begun,
    Due,
    Shown,
}

// The second in which the work was last looked at, and what stands on the terminal. It is quiet where rows that are not done yet stand on
// the same terminal.
#[derive(Clone, Copy)]
pub struct Clock {
    second: u64,
    progress: Progress,
    is_quiet: bool,
}

// The time, in seconds; 0 where the system does not tell it.
fn now(rt: &HostRuntime) -> u64 {
    rt.since_1970().map_or(0, |time| time.as_secs())
}

impl Clock {
    // A clock for work that begins, which leaves rows that are not done yet, or does not.
    pub fn begun(rt: &HostRuntime, by_rows: bool) -> Clock {
        let is_quiet = by_rows && rt.stdout().is_terminal();
        Clock {
            second: now(rt),
            progress: Progress::Begun,
            is_quiet,
        }
    }

    // Tells how much is done, when another second has begun and a whole one has gone by.
    pub fn tell(&mut self, rt: &HostRuntime, tiles: usize, bytes: usize) {
        let second = now(rt);
        if second == self.second {
            return;
        }
        self.second = second;
        if self.progress == Progress::Begun || self.is_quiet || !rt.stderr().is_terminal() {
            self.progress = Progress::Due;
            return;
        }
        say::words(rt, b"\r\x1b[Kcounterfrost: ");
        say::number(rt, tiles);
        say::words(rt, b" tiles, ");
        say::number(rt, bytes);
        say::words(rt, b" bytes");
        self.progress = Progress::Shown;
    }

    // Takes away what was told.
    pub fn clear(&self, rt: &HostRuntime) {
        if self.progress == Progress::Shown {
            say::words(rt, b"\r\x1b[K");
        }
    }
}
