//! Calls of the wire.
#![tactic(auto)]

mod texts;

use call_words::run;
use std::io;
use texts::Texts;

fn main(rt: HostRuntime) -> io::Result<()> {
    let mut texts = Texts::new(rt.alloc());
    run(&rt, &mut texts)
}
