//! Calls of `schedule_text` that read lines, and the texts of its statuses.

use call_words::{LAST, Words, shown};
use schedule_text::{Status, Text, read_step, read_team};
use std::alloc::{AllocError, Global};
use tw_types::{Act, Team};

/// The text of an act, in the words of `Debug`.
fn act_text(alloc: Global, act: &Act) -> Result<String, AllocError> {
    match act {
        Act::First => String::from_str(alloc, "First"),
        Act::Again => String::from_str(alloc, "Again"),
        Act::Crash => String::from_str(alloc, "Crash"),
        Act::Tick => String::from_str(alloc, "Tick"),
        Act::Look => String::from_str(alloc, "Look"),
        Act::Recv(number) => format!(in alloc; "Recv {number}"),
        Act::Reference { lo, hi } => format!(in alloc; "Reference {lo} {hi}"),
        Act::Send {
            order,
            atom,
            payload,
        } => {
            let payload = payload.as_slice();
            format!(in alloc; "Send {order:?} {atom:?} {payload:?}")
        }
    }
}

/// What the reader of steps of three processes makes of a line: the step's numbers and its act, or the fault.
fn step(alloc: Global, line: &str) -> Result<String, AllocError> {
    match read_step(&Team::OF_THREE, line.as_bytes()) {
        Ok(step) => {
            let act = act_text(alloc, &step.act)?;
            format!(in alloc; "{} {} {} {act}", step.t, step.who, step.h)
        }
        Err(fault) => shown(alloc, &fault),
    }
}

/// The status that differs from the words' line.
fn differs(alloc: Global, words: &mut Words<'_>) -> Result<Status, AllocError> {
    let line = words.number(LAST);
    let recorded = String::from_str(alloc, words.line())?;
    let recorded = Text::new(recorded.into_bytes());
    Ok(Status::Differs(line, recorded, Text::new(Vec::new(alloc))))
}

/// The next words as a status that no schedule alone brings about.
fn status(alloc: Global, words: &mut Words<'_>) -> Result<Status, AllocError> {
    let names = [
        "Ok",
        "Usage",
        "TooLong",
        "ReadFault",
        "WriteFault",
        "LinkFault",
        "ClockSpent",
        "WantOfMemory",
        "Differs",
    ];
    match words.among(&names) {
        1 => Ok(Status::Usage),
        2 => Ok(Status::TooLong),
        3 => Ok(Status::ReadFault),
        4 => Ok(Status::WriteFault),
        5 => Ok(Status::LinkFault),
        6 => Ok(Status::ClockSpent),
        7 => Ok(Status::WantOfMemory),
        8 => differs(alloc, words),
        _ => Ok(Status::Ok),
    }
}

/// The text of the next words' status.
fn status_text(alloc: Global, words: &mut Words<'_>) -> Result<String, AllocError> {
    let status = status(alloc, words)?;
    let text = format!(in alloc; "{status}")?;
    shown(alloc, &text.as_str())
}

/// `team` and `step` with a line; `step-ended`, whose line has its end, too; and `status`.
pub fn call(alloc: Global, words: &mut Words<'_>) -> Result<String, AllocError> {
    match words.among(&["team", "step", "step-ended", "status"]) {
        0 => shown(alloc, &read_team(words.line().as_bytes())),
        1 => step(alloc, words.line()),
        2 => {
            let line = format!(in alloc; "{}\n", words.line())?;
            step(alloc, line.as_str())
        }
        3 => status_text(alloc, words),
        _ => Ok(String::new(alloc)),
    }
}
