// How the command goes: its help, its version, and what is said if it is asked wrongly.
use crate::told::Told;
use crate::{asked, say};
use std::io::Error;
use words::Verb;

// How a command goes, and what it does, in a line each, of which each is written by itself.
#[derive(Clone, Copy)]
struct Guide {
    goes: &'static str,
    does: &'static str,
}

// How it goes where no command is named.
const GOES: &str = "counterfrost COMMAND WORD...; counterfrost help tells the commands\n";

// What closes the help.
const STATUSES: &str =
    "    exit status: 0 nothing is wrong, 1 something is, on the reel, 2 with the call or by the system\n";

fn guide_of(verb: Verb) -> Guide {
    match verb {
        Verb::List => Guide {
            goes: "counterfrost list REEL\n",
            does: "    a line for each tile, and one that closes the listing; - is standard input\n",
        },
        Verb::Repair => Guide {
            goes: "counterfrost repair REEL NEW [--force]\n",
            does: "    a new reel on which the tiles are mended as far as they can be, and the listing\n",
        },
        Verb::Map => Guide {
            goes: "counterfrost map REEL [--text]\n",
            does: "    a picture of the reel in SVG, or with --text in signs\n",
        },
        Verb::Read => Guide {
            goes: "counterfrost read REEL NUMBER\n",
            does: "    what a tile says, mended first; if several have the number, the first\n",
        },
        Verb::Write => Guide {
            goes: "counterfrost write NEW P L NUMBER TEXT... [--force]\n",
            does: "    a new reel of the texts' tiles, numbered from NUMBER on; L may be house\n",
        },
        Verb::Fill => Guide {
            goes: "counterfrost fill REEL NEW NUMBER LINE [LINE] [--force]\n",
            does: "    a new reel with lines of one tile filled; LINE is row:N or column:N\n",
        },
        Verb::Correct => Guide {
            goes: "counterfrost correct REEL NEW NUMBER SHEET [--force]\n",
            does: "    a new reel with the text of one tile corrected by a sheet\n",
        },
        Verb::Help => Guide {
            goes: "counterfrost help [COMMAND]\n",
            does: "    this, or what is said here of one command\n",
        },
        Verb::Version => Guide {
            goes: "counterfrost version\n",
            does: "    the version\n",
        },
    }
}

// How a command goes, behind what was wrong with it; where none is named, how all of them do.
pub fn goes(rt: &HostRuntime, verb: Option<Verb>) -> Told {
    let how = match verb {
        Some(verb) => guide_of(verb).goes,
        None => GOES,
    };
    say::name(rt);
    say::words(rt, b"it goes: ");
    say::words(rt, how.as_bytes());
    Told
}

pub fn no_command(rt: &HostRuntime) -> Told {
    say::line(rt, b"no command is named");
    goes(rt, None)
}

pub fn not_a_command(rt: &HostRuntime, word: &[u8]) -> Told {
    say::about(rt, word, b": no such command");
    goes(rt, None)
}

// The word is an option that the command does not take.
pub fn wrong_option(rt: &HostRuntime, verb: Option<Verb>, word: &[u8]) -> Told {
    wrong(rt, verb, word, b": no such option")
}

pub fn too_few(rt: &HostRuntime, verb: Option<Verb>) -> Told {
    say::line(rt, b"a word is missing");
    goes(rt, verb)
}

// The word is the first that is too many.
pub fn too_many(rt: &HostRuntime, verb: Option<Verb>, word: &[u8]) -> Told {
    wrong(rt, verb, word, b": one word too many")
}

// What was wrong with a word, and how the command goes.
pub fn wrong(rt: &HostRuntime, verb: Option<Verb>, word: &[u8], said: &[u8]) -> Told {
    say::about(rt, word, said);
    goes(rt, verb)
}

// How a command goes, and what it does.
fn print_one(rt: &HostRuntime, verb: Verb) -> Result<(), Error> {
    let Guide { goes, does } = guide_of(verb);
    rt.stdout().write_all(goes.as_bytes())?;
    rt.stdout().write_all(does.as_bytes())
}

fn print_all(rt: &HostRuntime) -> Result<(), Error> {
    for verb in Verb::ALL {
        print_one(rt, verb)?;
    }
    rt.stdout().write_all(STATUSES.as_bytes())
}

// Helps with all commands, or with the one that is named.
pub fn help(rt: &HostRuntime, plain: usize) -> Result<(), Told> {
    if plain == 0 {
        return say::arrived(rt, print_all(rt));
    }
    let word = asked::word(rt, 0)?;
    match words::verb_of(word.bytes()) {
        Some(verb) => say::arrived(rt, print_one(rt, verb)),
        None => Err(not_a_command(rt, word.bytes())),
    }
}

// Prints the version, which is the library's.
pub fn version(rt: &HostRuntime) -> Result<(), Told> {
    let version = word::version();
    let major = version / 10000;
    let minor = version / 100 % 100;
    let patch = version % 100;
    say::arrived(rt, println!(rt; "counterfrost {major}.{minor}.{patch}"))
}
