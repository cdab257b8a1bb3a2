//! Calls of `tw_system` on 127.0.0.1. The system chooses each port, and none is printed.
//!
//! `link` makes a link, which isn't bound, and `plain` the other end, a plain socket. `bind`, `send`, `recv` and `counts`
//! call the link; `plain_send` and `plain_recv` send to it and receive from it at the other end. `meet` waits for a process
//! of a test. `idle`, `idle_plain` and `sends` measure.

use crate::bytes::{as_words, bytes};
use crate::measures::{idle, idle_plain, sends};
use call_words::{Calls, Words, shown};
use std::alloc::{AllocError, Global};
use std::io::ErrorKind;
use std::net::{Ipv4Addr, SocketAddr, UdpSocket};
use std::time::{Duration, Instant};
use std::{io, time};
use tw_io::{Addr, Clock, Link, LinkFailed};
use tw_system::{SystemClock, UdpLink};

/// Any port of this machine.
const ANY: Addr = Addr {
    ip: [127, 0, 0, 1],
    port: 0,
};

/// A system whose clock can't be read.
#[derive(Drop)]
struct Unreadable;

impl time::Clock for Unreadable {
    fn monotonic(&self) -> io::Result<Duration> {
        Err(io::Error::from(ErrorKind::Unsupported))
    }

    fn since_1970(&self) -> io::Result<Duration> {
        Err(io::Error::from(ErrorKind::Unsupported))
    }
}

fn now_of<C: Clock>(clock: &mut C) -> u64 {
    clock.now()
}

fn bind_to<L: Link>(link: &mut L, own: Addr) -> Result<(), LinkFailed> {
    link.bind(own)
}

fn send_on<L: Link>(link: &mut L, to: Addr, bytes: &[u8]) -> Result<(), LinkFailed> {
    link.send(to, bytes)
}

/// What has come, and whether from there.
fn recv_from<L: Link>(
    alloc: Global,
    link: &mut L,
    wait: u64,
    there: Addr,
) -> Result<String, AllocError> {
    let mut buf = [0; 4096];
    match link.recv(&mut buf, wait) {
        Ok(Some(came)) => told(alloc, &buf[..came.len], came.from == there),
        Ok(None) => String::from_str(alloc, "none"),
        Err(LinkFailed) => String::from_str(alloc, "failed"),
    }
}

fn told(alloc: Global, bytes: &[u8], is_expected: bool) -> Result<String, AllocError> {
    let words = as_words(alloc, bytes)?;
    let from = if is_expected {
        "the other end"
    } else {
        "elsewhere"
    };
    format!(in alloc; "{words} from {from}")
}

/// A plain socket, at any port, which waits a second.
fn plain_socket(rt: &HostRuntime) -> io::Result<UdpSocket> {
    let socket = UdpSocket::bind(rt, SocketAddr::from((Ipv4Addr::LOCALHOST, 0)))?;
    socket.set_read_timeout(Some(Duration::from_secs(1)))?;
    Ok(socket)
}

fn port_of(socket: &UdpSocket) -> io::Result<Addr> {
    Ok(Addr {
        port: socket.local_addr()?.port(),
        ..ANY
    })
}

/// Where nobody listens, though somebody did.
fn left_port(rt: &HostRuntime) -> io::Result<Addr> {
    port_of(&plain_socket(rt)?)
}

fn new_link(rt: &HostRuntime) -> io::Result<UdpLink<HostRuntime>> {
    match UdpLink::new(rt.alloc(), *rt) {
        Ok(link) => Ok(link),
        Err(_) => Err(AllocError.into()),
    }
}

/// What the last lines made.
#[derive(Drop)]
pub struct System {
    clock: SystemClock<HostRuntime>,
    link: UdpLink<HostRuntime>,
    plain: UdpSocket,
    /// Where the link was bound before.
    before: Option<Addr>,
}

impl Calls for System {
    fn call(&mut self, rt: &HostRuntime, words: &mut Words<'_>) -> Result<String, AllocError> {
        match self.answer(rt, words) {
            Ok(answer) => Ok(answer),
            Err(error) => format!(in rt.alloc(); "{error}"),
        }
    }
}

impl System {
    pub fn new(rt: &HostRuntime) -> io::Result<System> {
        Ok(System {
            clock: SystemClock::new(*rt),
            link: new_link(rt)?,
            plain: plain_socket(rt)?,
            before: None,
        })
    }

    fn answer(&mut self, rt: &HostRuntime, words: &mut Words<'_>) -> io::Result<String> {
        let calls = [
            "link",
            "plain",
            "bind",
            "bind_in_use",
            "bind_again",
            "is_bound",
            "is_left",
            "send",
            "send_unheard",
            "send_nowhere",
            "recv",
            "plain_send",
            "plain_recv",
            "counts",
            "meet",
            "clock",
            "unreadable",
            "idle",
            "idle_plain",
            "sends",
        ];
        let alloc = rt.alloc();
        words.among(&["system"]);
        match words.among(&calls) {
            0 => {
                self.link = new_link(rt)?;
                Ok(String::new(alloc))
            }
            1 => {
                self.plain = plain_socket(rt)?;
                Ok(String::new(alloc))
            }
            2 => self.bind(alloc, ANY),
            3 => self.bind(alloc, self.other_end()?),
            4 => self.bind(alloc, self.own()),
            5 => self.is_bound(alloc),
            6 => self.is_left(rt),
            7 => self.send(alloc, self.other_end()?, words),
            8 => self.send(alloc, left_port(rt)?, words),
            9 => self.send(alloc, ANY, words),
            10 => self.recv(alloc, words),
            11 => self.plain_send(alloc, words),
            12 => self.plain_recv(alloc),
            13 => self.counts(alloc),
            14 => self.meet(rt, words),
            15 => self.clock(alloc, words),
            16 => Ok(shown(alloc, &now_of(&mut SystemClock::new(Unreadable)))?),
            place => self.measure(rt, place, words),
        }
    }

    /// Where the plain socket is bound.
    fn other_end(&self) -> io::Result<Addr> {
        port_of(&self.plain)
    }

    fn is_bound(&self, alloc: Global) -> io::Result<String> {
        Ok(shown(alloc, &self.link.local_addr().is_some())?)
    }

    /// Where the link is bound.
    fn own(&self) -> Addr {
        self.link.local_addr().unwrap_or(ANY)
    }

    fn bind(&mut self, alloc: Global, own: Addr) -> io::Result<String> {
        self.before = self.link.local_addr();
        Ok(shown(alloc, &bind_to(&mut self.link, own))?)
    }

    /// Whether a socket can be bound where the link was before.
    fn is_left(&self, rt: &HostRuntime) -> io::Result<String> {
        let before = self.before.unwrap_or(ANY);
        let bound = UdpSocket::bind(rt, SocketAddr::from((before.ip, before.port)));
        Ok(shown(rt.alloc(), &bound.is_ok())?)
    }

    fn send(&mut self, alloc: Global, to: Addr, words: &mut Words<'_>) -> io::Result<String> {
        let bytes = bytes(alloc, words)?;
        Ok(shown(alloc, &send_on(&mut self.link, to, &bytes))?)
    }

    fn recv(&mut self, alloc: Global, words: &mut Words<'_>) -> io::Result<String> {
        let wait = words.number(u64::MAX);
        let there = self.other_end()?;
        Ok(recv_from(alloc, &mut self.link, wait, there)?)
    }

    fn plain_send(&self, alloc: Global, words: &mut Words<'_>) -> io::Result<String> {
        let bytes = bytes(alloc, words)?;
        let own = self.own();
        let to = SocketAddr::from((own.ip, own.port));
        Ok(shown(alloc, &self.plain.send_to(&bytes, to)?)?)
    }

    fn plain_recv(&self, alloc: Global) -> io::Result<String> {
        let mut buf = [0; 8192];
        let own = self.own();
        let (count, from) = self.plain.recv_from(&mut buf)?;
        let is_own = from == SocketAddr::from((own.ip, own.port));
        Ok(told(alloc, &buf[..count], is_own)?)
    }

    fn counts(&self, alloc: Global) -> io::Result<String> {
        let faults = self.link.faults();
        let losses = self.link.losses();
        Ok(format!(in alloc; "{faults} faults, {losses} losses")?)
    }

    /// Sends to a port of this machine, and says what comes back and whether it came within a second.
    fn meet(&mut self, rt: &HostRuntime, words: &mut Words<'_>) -> io::Result<String> {
        let alloc = rt.alloc();
        let there = Addr {
            port: words.number(u16::MAX.into()) as u16,
            ..ANY
        };
        let sent = shown(alloc, &send_on(&mut self.link, there, &[]))?;
        let begun = Instant::now(rt)?;
        let came = recv_from(alloc, &mut self.link, 5_000_000, there)?;
        let is_soon = begun.elapsed(rt)? < Duration::from_secs(1);
        Ok(format!(in alloc; "{sent}, {came}, {is_soon}")?)
    }

    /// Whether two readings stand in order and within a minute of this second since 1970.
    fn clock(&mut self, alloc: Global, words: &mut Words<'_>) -> io::Result<String> {
        let told = words.number(u64::MAX).saturating_mul(1_000_000);
        let first = now_of(&mut self.clock);
        let second = now_of(&mut self.clock);
        let is_near = first.abs_diff(told).max(second.abs_diff(told)) < 60_000_000;
        Ok(shown(alloc, &(first <= second, is_near))?)
    }

    /// What this many waits or datagrams take, by the place among the words of `answer`.
    fn measure(
        &mut self,
        rt: &HostRuntime,
        place: usize,
        words: &mut Words<'_>,
    ) -> io::Result<String> {
        let count = words.number(u32::MAX.into());
        match place {
            17 => idle(rt, &mut self.link, words.number(u64::MAX), count),
            18 => self.idle_plain(rt, words.number(u64::MAX), count),
            _ => {
                let bytes = bytes(rt.alloc(), words)?;
                let mut from = new_link(rt)?;
                bind_to(&mut from, ANY).or(Err(io::Error::from(ErrorKind::AddrNotAvailable)))?;
                let own = self.own();
                sends(rt, &mut from, &mut self.link, own, &bytes, count)
            }
        }
    }

    fn idle_plain(&self, rt: &HostRuntime, wait: u64, count: u64) -> io::Result<String> {
        idle_plain(rt, &self.plain, wait, count)
    }
}
