//! Calls of one process, of all of a schedule, and of the text of steps and rows.
#![tactic(auto)]

mod cores;
mod rows;
mod texts;
mod worlds;

use call_words::{Calls, Words, run};
use cores::Cores;
use std::alloc::AllocError;
use std::io;
use tw_types::Row;
use worlds::Worlds;

/// What the lines have made so far.
#[derive(Drop)]
struct Made {
    cores: Cores,
    row: Row,
    worlds: Worlds,
}

impl Calls for Made {
    fn call(&mut self, rt: &HostRuntime, words: &mut Words<'_>) -> Result<String, AllocError> {
        let alloc = rt.alloc();
        match words.among(&["core", "row", "text", "world"]) {
            0 => self.cores.call(alloc, words),
            1 => rows::call(&mut self.row, alloc, words),
            2 => texts::call(alloc, words),
            3 => self.worlds.call(alloc, words),
            _ => Ok(String::new(alloc)),
        }
    }
}

fn main(rt: HostRuntime) -> io::Result<()> {
    let alloc = rt.alloc();
    match (Cores::new(alloc), rows::blank(alloc), Worlds::new(alloc)) {
        (Ok(cores), Ok(row), Ok(worlds)) => {
            let mut made = Made { cores, row, worlds };
            run(&rt, &mut made)
        }
        _ => Err(AllocError.into()),
    }
}
