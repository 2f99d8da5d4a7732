// What the command does: a reel listed, repaired, drawn, read, written, filled and corrected, from files of any length.
#![tactic(auto)]

use files::held::Word;
use files::told::Told;
use files::{asked, guide, streams};
use show::status::Status;
use std::env::FillError;
use words::Verb;

// Does what the words of the command line ask, and answers the exit status.
pub fn run(rt: &HostRuntime) -> Status {
    let _stand_ins = streams::stand_in(rt);
    served(rt).unwrap_or_else(|status| status)
}

// Does it, or tells what is wrong.
fn served(rt: &HostRuntime) -> Result<Status, Status> {
    let verb = verb(rt)?;
    let asked = asked::words(rt, verb)?;
    match verb {
        Verb::List => return Ok(whole::list(rt)?),
        Verb::Repair => return Ok(whole::repair(rt, asked.force)?),
        Verb::Map => return Ok(whole::map(rt, asked.text)?),
        Verb::Read => single::read(rt)?,
        Verb::Write => maker::write(rt, asked)?,
        Verb::Fill => single::fill(rt, asked)?,
        Verb::Correct => single::correct(rt, asked.force)?,
        Verb::Help => guide::help(rt, asked.plain)?,
        Verb::Version => guide::version(rt)?,
    }
    Ok(Status::Well)
}

// The command that the first word names. If it names none, that is said.
fn verb(rt: &HostRuntime) -> Result<Verb, Told> {
    let mut word = Word::empty();
    match word.read(rt, 1) {
        Ok(()) => words::verb_of(word.bytes()).ok_or_else(|| guide::not_a_command(
            rt,
            word.bytes(),
        )),
        Err(FillError::NotPresent) => Err(guide::no_command(rt)),
        Err(FillError::TooLong) => Err(asked::too_long(rt)),
    }
}
