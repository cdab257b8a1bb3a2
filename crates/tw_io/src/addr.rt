//! Addresses, and what came from one.

/// Where a process is reached: an IPv4 address and a port.
#[derive(Clone, Copy, Debug, PartialEq, Eq)]
pub struct Addr {
    pub ip: [u8; 4],
    pub port: u16,
}

/// Who sent a datagram, and its length in bytes.
#[derive(Clone, Copy, Debug, PartialEq, Eq)]
pub struct Came {
    pub from: Addr,
    pub len: usize,
}
