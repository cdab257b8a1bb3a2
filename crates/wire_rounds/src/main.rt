//! Datagrams that are made at random go through the reader and the writer and back.
//!
//! `rounds N` does so N times and prints what came of it: a fixed line for each N. `rates N` reads and writes a short and a
//! longest datagram of each kind N times each, and prints datagrams a second.
#![tactic(auto)]

mod draw;
mod page;
mod rates;
mod rounds;
mod samples;
mod team;
mod texts;

use std::{env, io};

/// The number behind a command, or 1,000.
fn number_of(word: Option<String>) -> u32 {
    match word {
        None => 1_000,
        Some(word) => word.as_str().parse().unwrap_or(1_000),
    }
}

fn main(rt: HostRuntime) -> io::Result<()> {
    let mut words = env::args(&rt)?.skip(1);
    let command = words.next();
    let number = number_of(words.next());
    match command {
        Some(word) if word.as_str() == "rates" => rates::print(&rt, number),
        _ => {
            let outcome = rounds::all(number);
            println!(rt; "{outcome}")
        }
    }
}
