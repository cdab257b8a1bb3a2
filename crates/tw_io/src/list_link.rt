//! A link in memory, of which chosen calls fail.

use crate::arrivals::Arrivals;
use crate::failing::Failing;
use crate::outbox::Outbox;
use crate::{Addr, Came, Link, LinkFailed};
use std::alloc::Global;
use tw_num::WantOfMemory;

/// A link in memory. It tells where it was bound, what was sent on it, and what is to arrive. Its counts stay at the last value of
/// a `u64`, and so do the numbers of its send calls.
#[derive(Drop)]
pub struct ListLink {
    arrivals: Arrivals,
    failing: Failing,
    outbox: Outbox,
    bound: Option<Addr>,
    binds: u64,
    send_calls: u64,
    faults: u64,
    losses: u64,
}

impl ListLink {
    ghost use Rattle.std.specs.Prelude.{◌≡◌, ◌≤◌, Some, IfOk, IfSome, IfNone, length};
    ghost use Rattle.tw_io.specs.Arrivals.{bytes_of_all, datagrams};
    ghost use Rattle.tw_io.specs.Link.{unbound, unsent};
    ghost use Rattle.tw_io.specs.ListLink.{plan, places_left, room_left, sent_on};
    ghost use Rattle.tw_io.specs.OutboxKept.{IsAt};

    /// A link on which these datagrams arrive, one at each `recv` that doesn't fail, or none, and nothing after their end. The
    /// bytes of each are the next `len` of `bytes`. There is room for `sends` datagrams that are sent, of `room` bytes
    /// together. Its calls of the numbers in `failing` fail: `bind`, `send` and `recv` are counted together, from 1.
    pub fn new(
        alloc: Global,
        arrivals: &[Option<Came>],
        bytes: &[u8],
        sends: usize,
        room: usize,
        failing: &[u64],
    ) -> Result<ListLink, WantOfMemory>
        requires { bytes_of_all arrivals.now ≡ length bytes.now }
        ensures binding { IfOk result (λ link. ⟦<ListLink as Link>⟧.binding link ≡ Some unbound) }
        ensures sends { IfOk result (λ link. ⟦<ListLink as Link>⟧.sends link ≡ Some unsent) }
        ensures arriving { IfOk result (λ link. ⟦<ListLink as Link>⟧.arriving link ≡ Some (datagrams arrivals.now bytes.now)) }
        ensures faults { IfOk result (λ link. ⟦<ListLink as Link>⟧.faults link ≡ 0) }
        ensures losses { IfOk result (λ link. ⟦<ListLink as Link>⟧.losses link ≡ 0) }
        ensures places { IfOk result (λ link. places_left link ≡ sends) }
        ensures room { IfOk result (λ link. room_left link ≡ room) }
        ensures plan { IfOk result (λ link. plan link ≡ record { calls = 0; failing = failing.now }) }
    {
        Ok(ListLink {
            arrivals: Arrivals::new(alloc, arrivals, bytes)?,
            failing: Failing::new(alloc, failing)?,
            outbox: Outbox::new(alloc, sends, room)?,
            bound: None,
            binds: 0,
            send_calls: 0,
            faults: 0,
            losses: 0,
        })
    }

    /// Number, address and bytes of the send at this place, from 0, among those that didn't fail. None exactly where there is
    /// none. The number counts send calls alone, failed ones too, from 1.
    pub fn sent(&self, place: usize) -> Option<(u64, Addr, &[u8])>
        ensures none { IfNone result (length (sent_on self.now) ≤ place) }
        ensures some { IfSome result (λ sent. IsAt (sent_on self.now) place sent.0 sent.1 sent.2.now) }
    {
        self.outbox.at(place)
    }
}

impl Link for ListLink {
    ghost use Rattle.std.specs.Prelude.{◌≡◌, ◌==◌, ◌||◌, nat_lt, ◌≤◌, ◌-◌, length, Some, is_err, IfOk, OnOk, OnErr};
    ghost use Rattle.tw_io.specs.Failing.{fails_next, called};
    ghost use Rattle.tw_io.specs.Faults.{IsRisen, one_more};
    ghost use Rattle.tw_io.specs.Link.{bound_to, one_sent, one_lost, next_arrival, arrivals_after, came_of, StandsIn};
    ghost use Rattle.tw_io.specs.ListLink.{plan, places_left, room_left, bound_on, sends_on, arriving_on, fault_count, loss_count};

    ghost binding = { λ l. Some (bound_on l) };

    ghost sends = { λ l. Some (sends_on l) };

    ghost arriving = { λ l. Some (arriving_on l) };

    ghost faults = { fault_count };

    ghost losses = { loss_count };

    /// Fails exactly where the plan says so.
    fn bind(&mut self, own: Addr) -> Result<(), LinkFailed>
        ensures exact { is_err result ≡ fails_next (plan self.old) }
        ensures plan { plan self.new ≡ called (plan self.old) }
        ensures bound { OnOk result (bound_on self.new ≡ bound_to own (bound_on self.old)) }
        ensures err { OnErr result (bound_on self.new ≡ bound_on self.old) }
        ensures sends { sends_on self.new ≡ sends_on self.old }
        ensures places { places_left self.new ≡ places_left self.old }
        ensures room { room_left self.new ≡ room_left self.old }
        ensures arriving { arriving_on self.new ≡ arriving_on self.old }
        ensures losses { loss_count self.new ≡ loss_count self.old }
        ensures passed { OnOk result (fault_count self.new ≡ fault_count self.old) }
        ensures failed { OnErr result (fault_count self.new ≡ one_more (fault_count self.old)) }
        ensures monotone { fault_count self.old ≤ fault_count self.new }
        ensures cause { OnErr result (IsRisen (fault_count self.old) (fault_count self.new)) }
    {
        if self.failing.call() {
            self.faults = self.faults.saturating_add(1);
            return Err(LinkFailed);
        }
        self.bound = Some(own);
        self.binds = self.binds.saturating_add(1);
        Ok(())
    }

    /// Fails exactly where the plan says so, or there is no place or no room for the whole datagram. It keeps the whole or nothing.
    fn send(&mut self, to: Addr, bytes: &[u8]) -> Result<(), LinkFailed>
        ensures exact { is_err result ≡ (fails_next (plan self.old) || ((places_left self.old == 0) || nat_lt (room_left self.old) (length bytes.now))) }
        ensures plan { plan self.new ≡ called (plan self.old) }
        ensures sent { OnOk result (sends_on self.new ≡ one_sent to bytes.now (sends_on self.old)) }
        ensures lost { OnErr result (sends_on self.new ≡ one_lost (sends_on self.old)) }
        ensures place { OnOk result (places_left self.new ≡ places_left self.old - 1) }
        ensures room { OnOk result (room_left self.new ≡ room_left self.old - length bytes.now) }
        ensures place_err { OnErr result (places_left self.new ≡ places_left self.old) }
        ensures room_err { OnErr result (room_left self.new ≡ room_left self.old) }
        ensures binding { bound_on self.new ≡ bound_on self.old }
        ensures arriving { arriving_on self.new ≡ arriving_on self.old }
        ensures faults { fault_count self.new ≡ fault_count self.old }
        ensures passed { OnOk result (loss_count self.new ≡ loss_count self.old) }
        ensures failed { OnErr result (loss_count self.new ≡ one_more (loss_count self.old)) }
        ensures monotone { loss_count self.old ≤ loss_count self.new }
        ensures cause { OnErr result (IsRisen (loss_count self.old) (loss_count self.new)) }
    {
        self.send_calls = self.send_calls.saturating_add(1);
        let fails = self.failing.call();
        if fails || !self.outbox.keep(self.send_calls, to, bytes) {
            self.losses = self.losses.saturating_add(1);
            return Err(LinkFailed);
        }
        Ok(())
    }

    /// Fails exactly where the plan says so. Else it gives the next datagram that is to arrive, or none, and doesn't wait.
    fn recv(&mut self, buf: &mut [u8; 4096], _wait: u64) -> Result<Option<Came>, LinkFailed>
        ensures exact { is_err result ≡ fails_next (plan self.old) }
        ensures plan { plan self.new ≡ called (plan self.old) }
        ensures came { IfOk result (λ answer. answer ≡ came_of (next_arrival (arriving_on self.old))) }
        ensures bytes { OnOk result (StandsIn (next_arrival (arriving_on self.old)) buf.new) }
        ensures after { OnOk result (arriving_on self.new ≡ arrivals_after (arriving_on self.old)) }
        ensures err { OnErr result (arriving_on self.new ≡ arriving_on self.old) }
        ensures binding { bound_on self.new ≡ bound_on self.old }
        ensures sends { sends_on self.new ≡ sends_on self.old }
        ensures places { places_left self.new ≡ places_left self.old }
        ensures room { room_left self.new ≡ room_left self.old }
        ensures losses { loss_count self.new ≡ loss_count self.old }
        ensures passed { OnOk result (fault_count self.new ≡ fault_count self.old) }
        ensures failed { OnErr result (fault_count self.new ≡ one_more (fault_count self.old)) }
        ensures monotone { fault_count self.old ≤ fault_count self.new }
        ensures cause { OnErr result (IsRisen (fault_count self.old) (fault_count self.new)) }
    {
        if self.failing.call() {
            self.faults = self.faults.saturating_add(1);
            return Err(LinkFailed);
        }
        Ok(self.arrivals.take(buf))
    }
}
