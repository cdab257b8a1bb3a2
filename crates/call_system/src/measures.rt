//! What waits and datagrams cost.

use std::io;
use std::net::UdpSocket;
use std::time::{CpuClock, Duration, Instant};
use tw_io::{Addr, Link};

/// When a measurement began, by the clock and by the processor.
#[derive(Drop)]
struct Begun {
    at: Instant,
    used: Duration,
}

impl Begun {
    fn new(rt: &HostRuntime) -> io::Result<Begun> {
        Ok(Begun {
            at: Instant::now(rt)?,
            used: rt.process_cpu_time()?,
        })
    }

    /// So many a second since then, and the share of a processor.
    fn rate(&self, rt: &HostRuntime, count: u64) -> io::Result<String> {
        let micros = self.at.elapsed(rt)?.as_micros().max(1);
        let used = rt.process_cpu_time()?.saturating_sub(self.used).as_micros();
        let rate = u128::from(count) * 1_000_000 / micros;
        let share = used.saturating_mul(1000) / micros;
        Ok(format!(in rt.alloc(); "{rate} a second, {share} thousandths of a processor")?)
    }
}

/// Waits of a link on which nothing comes.
pub fn idle<L: Link>(rt: &HostRuntime, link: &mut L, wait: u64, count: u64) -> io::Result<String> {
    let begun = Begun::new(rt)?;
    let mut buf = [0; 4096];
    let mut none = 0u64;
    for _ in 0..count {
        if link.recv(&mut buf, wait) == Ok(None) {
            none = none.saturating_add(1);
        }
    }
    begun.rate(rt, none)
}

/// The same of a plain socket whose read time-out is the wait.
pub fn idle_plain(
    rt: &HostRuntime,
    plain: &UdpSocket,
    wait: u64,
    count: u64,
) -> io::Result<String> {
    plain.set_read_timeout(Some(Duration::from_micros(wait)))?;
    let begun = Begun::new(rt)?;
    let mut buf = [0; 4096];
    let mut none = 0u64;
    for _ in 0..count {
        if plain.recv_from(&mut buf).is_err() {
            none = none.saturating_add(1);
        }
    }
    begun.rate(rt, none)
}

/// Datagrams of so many bytes that one link sends and another receives, one after the other.
pub fn sends<L: Link>(
    rt: &HostRuntime,
    from: &mut L,
    to: &mut L,
    at: Addr,
    bytes: &[u8],
    count: u64,
) -> io::Result<String> {
    let begun = Begun::new(rt)?;
    let mut buf = [0; 4096];
    let mut came = 0u64;
    for _ in 0..count {
        if from.send(at, bytes).is_ok() && matches!(to.recv(&mut buf, 1_000_000), Ok(Some(_))) {
            came = came.saturating_add(1);
        }
    }
    begun.rate(rt, came)
}
