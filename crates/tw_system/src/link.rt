//! Datagrams over a UDP socket.

ghost use Rattle.std.specs.Prelude.{◌≡◌, ◌≤◌, ◌↔◌, None, Some, IfSome, MatchOption, IfOk, IfErr, IsErr, IsTrue};
ghost use Rattle.std.specs.IoError.{error_kind};
ghost use Rattle.tw_system.specs.System.{addr_of, IsVain};

use mio::net::UdpSocket;
use mio::{Events, Interest, Poll, Token};
use std::alloc::Global;
use std::io;
use std::io::ErrorKind;
use std::net::{Ipv4Addr, Net, SocketAddr, SocketAddrV4};
use std::time::Duration;
use tw_io::{Addr, Came, Link, LinkFailed};
use tw_num::WantOfMemory;

/// The system's address of this one.
fn socket_addr(addr: Addr) -> SocketAddr
    ensures { addr_of result ≡ Some addr }
{
    SocketAddr::V4(SocketAddrV4::new(Ipv4Addr::from_octets(addr.ip), addr.port))
}

/// None for an address of IPv6.
fn addr_of(addr: SocketAddr) -> Option<Addr>
    ensures { result ≡ addr_of addr }
{
    match addr {
        SocketAddr::V4(addr) => Some(Addr {
            ip: addr.ip().octets(),
            port: addr.port(),
        }),
        SocketAddr::V6(_) => None,
    }
}

/// Whether all of so many bytes were sent.
fn is_whole(sent: io::Result<usize>, len: usize) -> bool
    ensures { IsTrue result ↔ (sent ≡ Ok len) }
{
    matches!(sent, Ok(count) if count == len)
}

/// What was received: a datagram, or none where a wait was in vain or a signal ended it. Each other error is one.
fn received(given: io::Result<(usize, SocketAddr)>) -> io::Result<Option<Came>>
    ensures came { IfOk given (λ g. MatchOption (addr_of g.1) (IsErr result) (λ from. result ≡ Ok (Some (record { from = from; len = g.0 })))) }
    ensures none { IfErr given (λ e. IsVain (error_kind e) → result ≡ Ok None) }
    ensures error { IfErr given (λ e. ¬ IsVain (error_kind e) → IsErr result) }
{
    match given {
        Ok((len, from)) => match addr_of(from) {
            Some(from) => Ok(Some(Came { from, len })),
            None => Err(io::Error::from(ErrorKind::InvalidData)),
        },
        Err(error) => {
            let kind = error.kind();
            if kind == ErrorKind::WouldBlock || kind == ErrorKind::Interrupted {
                Ok(None)
            } else {
                Err(error)
            }
        }
    }
}

/// A socket that is bound, which itself never waits, and what waits for it.
#[derive(Drop)]
struct Bound {
    socket: UdpSocket,
    poll: Poll,
}

impl Bound {
    fn new(net: &impl Net, own: Addr) -> io::Result<Bound> {
        let mut socket = UdpSocket::bind(net, socket_addr(own))?;
        let poll = Poll::new(net)?;
        poll.registry()
            .register(&mut socket, Token(0), Interest::READABLE)?;
        Ok(Bound { socket, poll })
    }

    /// Whether the system took the whole datagram.
    fn has_sent(&self, to: Addr, bytes: &[u8]) -> bool {
        is_whole(self.socket.send_to(bytes, socket_addr(to)), bytes.len())
    }

    /// What is there. A datagram that doesn't fit is cut.
    fn take(&self, buf: &mut [u8; 4096]) -> io::Result<Option<Came>>
        ensures { IfOk result (λ answer. IfSome answer (λ came. came.len ≤ 4096)) }
    {
        received(self.socket.recv_from(buf))
    }

    /// What is there, after a wait of at most so many microseconds where nothing is.
    fn receive(
        &mut self,
        events: &mut Events,
        buf: &mut [u8; 4096],
        wait: u64,
    ) -> io::Result<Option<Came>>
        ensures { IfOk result (λ answer. IfSome answer (λ came. came.len ≤ 4096)) }
    {
        let came = self.take(buf)?;
        if came.is_some() || wait == 0 {
            return Ok(came);
        }
        self.poll.poll(events, Some(Duration::from_micros(wait)))?;
        self.take(buf)
    }
}

/// A link over a UDP socket of the system, which it opens where it is bound. It tells no content, and counts each error.
/// Both counts stay at the last value of a `u64`.
///
/// It never connects, so a peer that is down is no error. A second `bind` replaces the socket; it fails at the address
/// that is bound already.
#[derive(Drop)]
pub struct UdpLink<N> {
    net: N,
    events: Events,
    bound: Option<Bound>,
    faults: u64,
    losses: u64,
}

impl<N: Net + Drop> UdpLink<N> {
    ghost use Rattle.std.specs.Prelude.{◌≡◌, false, None, IfOk};
    ghost use Rattle.tw_system.specs.UdpLink.{is_bound};

    /// A link of this handle's network. It isn't bound yet.
    pub fn new(alloc: Global, net: N) -> Result<UdpLink<N>, WantOfMemory>
        ensures bound { IfOk result (λ link. is_bound link ≡ false) }
        ensures faults { IfOk result (λ link. ⟦<UdpLink<N> as Link>⟧.faults link ≡ 0) }
        ensures losses { IfOk result (λ link. ⟦<UdpLink<N> as Link>⟧.losses link ≡ 0) }
    {
        Ok(UdpLink {
            net,
            events: Events::with_capacity(alloc, 1)?,
            bound: None,
            faults: 0,
            losses: 0,
        })
    }

    /// Where it receives, with the port that the system chose where it was bound to port 0. None where it isn't bound,
    /// or the system doesn't say.
    pub fn local_addr(&self) -> Option<Addr>
        ensures { is_bound self.now ≡ false → result ≡ None }
    {
        addr_of(self.bound.as_ref()?.socket.local_addr().ok()?)
    }

    /// How often `bind` or `recv` has failed.
    pub fn faults(&self) -> u64
        ensures { result ≡ ⟦<UdpLink<N> as Link>⟧.faults self.now }
    {
        self.faults
    }

    /// How often `send` has failed.
    pub fn losses(&self) -> u64
        ensures { result ≡ ⟦<UdpLink<N> as Link>⟧.losses self.now }
    {
        self.losses
    }
}

impl<N: Net> Link for UdpLink<N> {
    ghost use Rattle.std.specs.Prelude.{◌≡◌, ◌≤◌, true, false, None, is_err, IfOk, IfSome, OnOk, OnErr};
    ghost use Rattle.tw_io.specs.Faults.{IsRisen, one_more};
    ghost use Rattle.tw_system.specs.UdpLink.{is_bound, fault_count, loss_count};

    ghost binding = { λ _. None };

    ghost sends = { λ _. None };

    ghost arriving = { λ _. None };

    ghost faults = { fault_count };

    ghost losses = { loss_count };

    fn bind(&mut self, own: Addr) -> Result<(), LinkFailed>
        ensures bound { OnOk result (is_bound self.new ≡ true) }
        ensures kept { OnErr result (is_bound self.new ≡ is_bound self.old) }
        ensures passed { OnOk result (fault_count self.new ≡ fault_count self.old) }
        ensures failed { OnErr result (fault_count self.new ≡ one_more (fault_count self.old)) }
        ensures losses { loss_count self.new ≡ loss_count self.old }
        ensures monotone { fault_count self.old ≤ fault_count self.new }
        ensures cause { OnErr result (IsRisen (fault_count self.old) (fault_count self.new)) }
    {
        match Bound::new(&self.net, own) {
            Ok(bound) => {
                self.bound = Some(bound);
                Ok(())
            }
            Err(_) => {
                self.faults = self.faults.saturating_add(1);
                Err(LinkFailed)
            }
        }
    }

    /// A datagram that the system takes in part, or can't take without a wait, is lost. So is each where the link isn't
    /// bound.
    fn send(&mut self, to: Addr, bytes: &[u8]) -> Result<(), LinkFailed>
        ensures unbound { is_bound self.old ≡ false → is_err result ≡ true }
        ensures bound { is_bound self.new ≡ is_bound self.old }
        ensures passed { OnOk result (loss_count self.new ≡ loss_count self.old) }
        ensures failed { OnErr result (loss_count self.new ≡ one_more (loss_count self.old)) }
        ensures faults { fault_count self.new ≡ fault_count self.old }
        ensures monotone { loss_count self.old ≤ loss_count self.new }
        ensures cause { OnErr result (IsRisen (loss_count self.old) (loss_count self.new)) }
    {
        if let Some(bound) = &self.bound
            && bound.has_sent(to, bytes)
        {
            return Ok(());
        }
        self.losses = self.losses.saturating_add(1);
        Err(LinkFailed)
    }

    /// What is there is given at once, and a wait of 0 is none. Else it sleeps, by whole milliseconds rounded up; a signal
    /// may end the wait early. It fails where the link isn't bound.
    fn recv(&mut self, buf: &mut [u8; 4096], wait: u64) -> Result<Option<Came>, LinkFailed>
        ensures within { IfOk result (λ answer. IfSome answer (λ came. came.len ≤ 4096)) }
        ensures unbound { is_bound self.old ≡ false → is_err result ≡ true }
        ensures bound { is_bound self.new ≡ is_bound self.old }
        ensures passed { OnOk result (fault_count self.new ≡ fault_count self.old) }
        ensures failed { OnErr result (fault_count self.new ≡ one_more (fault_count self.old)) }
        ensures losses { loss_count self.new ≡ loss_count self.old }
        ensures monotone { fault_count self.old ≤ fault_count self.new }
        ensures cause { OnErr result (IsRisen (fault_count self.old) (fault_count self.new)) }
    {
        if let Some(bound) = &mut self.bound
            && let Ok(answer) = bound.receive(&mut self.events, buf, wait)
        {
            return Ok(answer);
        }
        self.faults = self.faults.saturating_add(1);
        Err(LinkFailed)
    }
}
