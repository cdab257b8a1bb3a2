//! What a step gave, as text.

use call_words::shown;
use std::alloc::{AllocError, Global};
use tw_types::{Body, Outputs, ProposeFault};

/// Each question that was sent, with the process that it was sent to.
pub fn asks(alloc: Global, out: &Outputs) -> Result<String, AllocError> {
    let mut asks = Vec::new(alloc);
    for (to, datagram) in out.sends.as_slice() {
        if let Body::Ask(want) = &datagram.body {
            asks.push((*to, *want))?;
        }
    }
    shown(alloc, &asks)
}

/// Each update that was sent, with the process that it was sent to.
pub fn gives(alloc: Global, out: &Outputs) -> Result<String, AllocError> {
    let mut given = Vec::new(alloc);
    for (to, datagram) in out.sends.as_slice() {
        if let Body::Update(kept) = &datagram.body {
            given.push((*to, kept))?;
        }
    }
    shown(alloc, &given)
}

/// Each position that was passed, with its update's number and how it was passed.
pub fn passes(alloc: Global, out: &Outputs) -> Result<String, AllocError> {
    let mut passes = Vec::new(alloc);
    for pass in out.passes.as_slice() {
        passes.push((pass.position, pass.kept.entry.id.seq, pass.how))?;
    }
    shown(alloc, &passes)
}

/// The number of each update that was delivered early, and whether it is marked as such.
pub fn earlies(alloc: Global, out: &Outputs) -> Result<String, AllocError> {
    let mut earlies = Vec::new(alloc);
    for kept in out.earlies.as_slice() {
        earlies.push((kept.entry.id.seq, kept.early))?;
    }
    shown(alloc, &earlies)
}

/// The name of a refusal.
pub fn fault_name(fault: ProposeFault) -> &'static str {
    match fault {
        ProposeFault::TooLong => "TooLong",
        ProposeFault::NotUpToDate => "NotUpToDate",
        ProposeFault::Full => "Full",
        ProposeFault::Spent => "Spent",
    }
}
