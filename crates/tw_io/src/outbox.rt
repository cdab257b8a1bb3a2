//! Datagrams in memory that were sent. `ListLink` keeps them here.

ghost use Rattle.std.specs.Prelude.{◌≡◌, ◌≤◌, true, take, vec_len};
ghost use Rattle.tw_io.specs.Outbox.{all_within};

use crate::Addr;
use crate::put::put;
use std::alloc::{AllocError, Global};

/// A datagram that was sent: its number among the send calls, where it went, and where its bytes stand.
#[derive(Clone, Copy)]
pub(crate) struct Kept {
    number: u64,
    to: Addr,
    start: usize,
    len: usize,
}

/// Datagrams that were sent, in their order, with a room for so many of so many bytes together.
#[derive(Drop)]
pub(crate) struct Outbox {
    places: Vec<Kept>,
    count: usize,
    room: Vec<u8>,
    used: usize,
    ghost counted: { count ≤ vec_len places },
    ghost within: { used ≤ vec_len room },
    ghost each: { all_within used (take count places.items) ≡ true },
}

impl Outbox {
    ghost use Rattle.std.specs.Prelude.{◌≡◌, ◌==◌, ◌&&◌, nat_lt, ◌≤◌, ◌-◌, ◌++◌, [], ◌∷◌, not, true, false, length, IfOk, IfSome, IfNone};
    ghost use Rattle.tw_io.specs.OutboxKept.{sends_kept, places_left, room_left, IsAt};

    pub(crate) fn new(alloc: Global, places: usize, room: usize) -> Result<Outbox, AllocError>
        ensures kept { IfOk result (λ o. sends_kept o ≡ []) }
        ensures places { IfOk result (λ o. places_left o ≡ places) }
        ensures room { IfOk result (λ o. room_left o ≡ room) }
    {
        let blank = Kept {
            number: 0,
            to: Addr {
                ip: [0; 4],
                port: 0,
            },
            start: 0,
            len: 0,
        };
        Ok(Outbox {
            places: vec![in alloc; blank; places]?,
            count: 0,
            room: vec![in alloc; 0; room]?,
            used: 0,
        })
    }

    /// Keeps a datagram whole. False where no place is left or its bytes don't fit, and then nothing changes.
    pub(crate) fn keep(&mut self, number: u64, to: Addr, bytes: &[u8]) -> bool
        ensures exact { result ≡ (not (places_left self.old == 0) && not (nat_lt (room_left self.old) (length bytes.now))) }
        ensures kept { result ≡ true → sends_kept self.new ≡ sends_kept self.old ++ record { number = number; to = to; bytes = bytes.now } ∷ [] }
        ensures places { result ≡ true → places_left self.new ≡ places_left self.old - 1 }
        ensures room { result ≡ true → room_left self.new ≡ room_left self.old - length bytes.now }
        ensures same { result ≡ false → self.new ≡ self.old }
    {
        if self.count == self.places.len() || bytes.len() > self.room.len() - self.used {
            return false;
        }
        put(&mut self.room, self.used, bytes);
        self.places[self.count] = Kept {
            number,
            to,
            start: self.used,
            len: bytes.len(),
        };
        self.count += 1;
        self.used += bytes.len();
        true
    }

    /// The datagram at a place, from 0. None exactly where there is none.
    pub(crate) fn at(&self, place: usize) -> Option<(u64, Addr, &[u8])>
        ensures none { IfNone result (length (sends_kept self.now) ≤ place) }
        ensures some { IfSome result (λ sent. IsAt (sends_kept self.now) place sent.0 sent.1 sent.2.now) }
    {
        if place >= self.count {
            return None;
        }
        let kept = self.places[place];
        Some((
            kept.number,
            kept.to,
            &self.room[kept.start..kept.start + kept.len],
        ))
    }
}
