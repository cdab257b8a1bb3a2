//! The program `timewheel`. `timewheel replay` reads from standard input what happens to the processes of a team, step by step, and
//! writes a row for each step to standard output: what its process reads of team time, whether it may believe its group, its last
//! decision, what it decided, delivered and sent, and, after a look, its table.
//!
//! Here are the program's words, its adapters and its end: a status other than `Ok` is a line on standard error, and its number is
//! the program's. What a command does is in `run`.
#![tactic(auto)]

mod run;

use run::run;
use schedule_text::Status;
use std::alloc::Global;
use std::process::ExitCode;
use std::{env, io};
use tw_io::{ListClock, StandardInput, StandardOutput, SteadyLink};

/// The words behind the program's name. Words that aren't text are no command.
fn words(rt: &HostRuntime) -> Result<Vec<String>, Status> {
    match env::args(rt) {
        Ok(args) => args
            .skip(1)
            .collect(rt.alloc())
            .map_err(|_| Status::WantOfMemory),
        Err(error) if error.kind() == io::ErrorKind::InvalidData => Err(Status::Usage),
        Err(_) => Err(Status::WantOfMemory),
    }
}

fn command(rt: &HostRuntime) -> Result<Status, Status> {
    let alloc = rt.alloc();
    let words = words(rt)?;
    let mut clock = ListClock::new(alloc, &[]).map_err(|_| Status::WantOfMemory)?;
    let mut link = SteadyLink::new(alloc, &[], &[]).map_err(|_| Status::WantOfMemory)?;
    let mut src = StandardInput::new(rt.stdin());
    let mut sink = StandardOutput::new(rt.stdout());
    Ok(run(alloc, &words, &mut src, &mut sink, &mut clock, &mut link))
}

fn main(rt: HostRuntime) -> ExitCode {
    let status = match command(&rt) {
        Ok(status) => status,
        Err(status) => status,
    };
    if !matches!(status, Status::Ok) {
        let _ = eprintln!(rt; "{status}");
    }
    ExitCode::from(status.number())
}

#[cfg(test)]
mod tests;
