//! Calls of the clock, of the bounds of delays, of the table, of the list, and of what waits for it and is delivered of it.
#![tactic(auto)]

mod clock;
mod deliveries;
mod detector;
mod list;
mod ordering;
mod store;
mod tables;
mod transfer;
mod updates;

use app_table::Table;
use call_words::{Calls, Words, run};
use clock_sync::TeamClock;
use list::Lists;
use ordering::Orderings;
use state_transfer::Incoming;
use std::alloc::AllocError;
use std::io;
use store::Stores;

/// What the lines have made so far.
#[derive(Drop)]
struct Made {
    clock: TeamClock,
    lists: Lists,
    orderings: Orderings,
    stores: Stores,
    table: Table,
    incoming: Incoming,
}

impl Calls for Made {
    fn call(&mut self, rt: &HostRuntime, words: &mut Words<'_>) -> Result<String, AllocError> {
        let alloc = rt.alloc();
        let libraries = [
            "clock", "delivery", "detector", "list", "order", "store", "table", "transfer",
        ];
        match words.among(&libraries) {
            0 => clock::call(&mut self.clock, alloc, words),
            1 => deliveries::call(&self.lists, alloc, words),
            2 => detector::call(alloc, words),
            3 => self.lists.call(alloc, words),
            4 => self.orderings.call(alloc, &self.stores, words),
            5 => self.stores.call(alloc, words),
            6 => tables::call(&mut self.table, alloc, words),
            7 => transfer::call(&mut self.incoming, alloc, words),
            _ => Ok(String::new(alloc)),
        }
    }
}

fn main(rt: HostRuntime) -> io::Result<()> {
    let alloc = rt.alloc();
    match (
        Lists::new(alloc),
        Stores::new(alloc),
        tables::new(alloc),
        transfer::new(alloc),
    ) {
        (Ok(lists), Ok(stores), Ok(table), Ok(incoming)) => {
            let mut made = Made {
                clock: TeamClock::new(0, 1000),
                orderings: Orderings::new(),
                lists,
                stores,
                table,
                incoming,
            };
            run(&rt, &mut made)
        }
        _ => Err(AllocError.into()),
    }
}
