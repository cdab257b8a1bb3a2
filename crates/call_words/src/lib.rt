//! Tables of calls: each line of a program's input makes a call and says what it answers.
#![tactic(auto)]

mod words;

use std::alloc::{AllocError, Global};
use std::{fmt, io};
pub use words::{LAST, Words};

/// What the lines of a table have made so far.
pub trait Calls {
    /// What the call of these words answers, mostly in the words of `Debug`.
    fn call(&mut self, rt: &HostRuntime, words: &mut Words<'_>) -> Result<String, AllocError>;
}

/// A value in the words of `Debug`.
pub fn shown<T: fmt::Debug>(alloc: Global, value: &T) -> Result<String, AllocError> {
    format!(in alloc; "{value:?}")
}

/// Whether the call of this line answers as the line tells. Else it is printed what it answers.
fn is_as_told<C: Calls>(rt: &HostRuntime, calls: &mut C, line: &str) -> io::Result<bool> {
    let (call, told) = line.split_once(" = ").unwrap_or((line, ""));
    let mut words = Words::new(call);
    let answer = calls.call(rt, &mut words)?;
    let given = if words.are_wrong || !words.have_ended() {
        "can't be read"
    } else {
        answer.as_str()
    };
    if given != told {
        println!(rt; "{call} = {given}")?;
    }
    Ok(given == told)
}

/// Makes the calls of the input's lines, and prints how many there are and how many of these answer otherwise than told.
pub fn run<C: Calls>(rt: &HostRuntime, calls: &mut C) -> io::Result<()> {
    let text = io::read_to_string(rt.alloc(), rt.reader())?;
    let mut made = 0u64;
    let mut others = 0u64;
    for line in text.as_str().lines() {
        if !line.is_empty() && !line.starts_with('#') {
            made = made.saturating_add(1);
            if !is_as_told(rt, calls, line)? {
                others = others.saturating_add(1);
            }
        }
    }
    println!(rt; "{made} calls, {others} answered otherwise")
}
