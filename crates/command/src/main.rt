// The command `counterfrost`: its program begins here, and the answer is the exit status.
#![tactic(auto)]

ghost use Rattle.files.specs.Exit.{Exit};

use std::process::ExitCode;

pub fn counterfrost_command(rt: &HostRuntime) -> i32
    ensures { Exit result }
{
    i32::from(desk::run(rt))
}

fn main(rt: HostRuntime) -> ExitCode {
    let status = counterfrost_command(&rt);
    ExitCode::from(u8::try_from(status).unwrap_or(2))
}
