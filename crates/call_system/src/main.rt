//! Calls of the system's clock and socket.
#![tactic(auto)]

mod bytes;
mod calls;
mod measures;

use call_words::run;
use calls::System;
use std::io;

fn main(rt: HostRuntime) -> io::Result<()> {
    run(&rt, &mut System::new(&rt)?)
}
