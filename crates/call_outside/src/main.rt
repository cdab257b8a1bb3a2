//! Calls of the outside.
#![tactic(auto)]

mod copying;
mod forms;

use call_words::run;
use forms::Outside;
use std::alloc::AllocError;
use std::io;

fn main(rt: HostRuntime) -> io::Result<()> {
    match Outside::new(rt.alloc()) {
        Ok(mut made) => run(&rt, &mut made),
        Err(AllocError) => Err(AllocError.into()),
    }
}
