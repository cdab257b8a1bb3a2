//! What happens to the process of a node.

use tw_types::{Atom, Order};

/// What happens to the process of a node. Bytes are lent.
#[derive(Clone, Copy)]
pub enum Input<'a> {
    /// Time passed.
    Tick,
    /// Bytes came from a peer.
    Packet(&'a [u8]),
    /// Team time is known to lie from `lo` to `hi`, in microseconds.
    Reference {
        lo: u64,
        hi: u64,
    },
    /// An update is to be sent.
    Send {
        order: Order,
        atom: Atom,
        payload: &'a [u8],
    },
    /// The process is asked what it says.
    Look,
}
