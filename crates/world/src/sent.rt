//! The datagrams that were sent, as bytes.

ghost use Rattle.std.specs.Prelude.{◌≡◌, true, length};
ghost use Rattle.tw_types.specs.Ranges.{DatagramFits};
ghost use Rattle.tw_types.specs.Spelling.{spelling};
ghost use Rattle.tw_types.specs.Team.{IsSound};
ghost use Rattle.world.specs.Places.{are_within};

use std::alloc::Global;
use tw_num::WantOfMemory;
use tw_types::{Act, Datagram, Sends, Step, Team};
use wire_body::write;

/// The most datagrams that one step sends.
const SENDS: usize = 64;

/// The most bytes that a datagram has.
const BYTES: usize = 4096;

/// The process that a datagram was sent to, and where its bytes lie: from `start` to before `end`.
#[derive(Clone, Copy)]
pub struct Place {
    to: u8,
    start: usize,
    end: usize,
}

/// The bytes of all datagrams that were sent, one behind the other, and the place of each in the order in which they were
/// sent.
#[derive(Drop)]
pub struct Sent {
    bytes: Vec<u8>,
    places: Vec<Place>,
    ghost within: { are_within (length bytes.items) places.items ≡ true },
}

impl Sent {
    ghost use Rattle.std.specs.Prelude.{◌≡◌, ◌+◌, ◌<◌, ◌≤◌, ◌++◌, ℕ, List, [], ◌∷◌, map, length, vec_len, true, OnOk, IfSome, Some};
    ghost use Rattle.std.specs.List.{AllByRecursion};
    ghost use Rattle.tw_types.specs.Numbered.{numbered};
    ghost use Rattle.tw_machine.specs.Dispatches.{Dispatch};
    ghost use Rattle.tw_machine.specs.Admissible.{may_receive};
    ghost use Rattle.node_core.specs.Sends.{IsSendable};
    ghost use Rattle.world.specs.Places.{is_within};
    ghost use Rattle.world.specs.Datagrams.{datagrams, HasRoom, is_to, spelled, kept_as};

    /// Nothing was sent.
    pub fn new(alloc: Global) -> Sent
        ensures bytes { result.bytes.items ≡ [] }
        ensures places { result.places.items ≡ [] }
    {
        Sent {
            bytes: Vec::new(alloc),
            places: Vec::new(alloc),
        }
    }

    /// How many datagrams were sent.
    pub fn count(&self) -> usize
        ensures { result ≡ vec_len self.now.places }
    {
        self.places.len()
    }

    /// Takes room for all that one step may send.
    pub fn reserve(&mut self) -> Result<(), WantOfMemory>
        ensures room { OnOk result (HasRoom 64 self.new) }
        ensures bytes { self.new.bytes.items ≡ self.old.bytes.items }
        ensures places { self.new.places.items ≡ self.old.places.items }
        ensures count { vec_len self.new.places ≡ vec_len self.old.places }
    {
        self.bytes.reserve(SENDS * BYTES)?;
        self.places.reserve(SENDS)?;
        Ok(())
    }

    /// Keeps one datagram more, for which there is room.
    fn keep_one(&mut self, team: &Team, to: u8, datagram: &Datagram)
        requires sound { IsSound team.now }
        requires fits { DatagramFits team.now.n datagram.now }
        requires room { HasRoom 1 self.old }
        ensures kept { datagrams self.new ≡ datagrams self.old ++ (to, spelling team.now.line datagram.now) ∷ [] }
        ensures room { (k : ℕ) → HasRoom (k + 1) self.old → HasRoom k self.new }
        ensures count { vec_len self.new.places ≡ vec_len self.old.places + 1 }
    {
        let mut bytes = [0; BYTES];
        let length = write(team, datagram, &mut bytes);
        let start = self.bytes.len();
        let _ = self.bytes.extend_from_slice(&bytes[..length]);
        let end = self.bytes.len();
        let _ = self.places.push(Place { to, start, end });
    }

    /// Keeps what a step sent, for which there is room.
    pub fn keep(&mut self, team: &Team, sends: &Sends)
        requires sound { IsSound team.now }
        requires fits { AllByRecursion (IsSendable team.now.n) sends.now }
        requires room { HasRoom 64 self.old }
        ensures kept { datagrams self.new ≡ datagrams self.old ++ map (spelled team.now.line) sends.now }
        ensures count { vec_len self.new.places ≤ vec_len self.old.places + 64 }
    {
        for (to, datagram) in sends.as_slice() {
            self.keep_one(team, *to, datagram);
        }
    }

    /// The place of the datagram of this number, counted from 1, where it was sent.
    fn place(&self, number: u32) -> Option<Place>
        ensures exact { result ≡ numbered number self.now.places.items }
        ensures within { IfSome result (λ p. is_within (length self.now.bytes.items) p ≡ true) }
    {
        let index = (number as usize).checked_sub(1)?;
        self.places.get(index).copied()
    }

    /// The bytes of the datagram of this number, counted from 1, and none where it wasn't sent.
    pub fn bytes(&self, number: u32) -> &[u8]
        ensures { (d : ℕ × List ℕ) → numbered number (datagrams self.now) ≡ Some d → result.now ≡ d.1 }
    {
        match self.place(number) {
            Some(place) => &self.bytes[place.start..place.end],
            None => &[],
        }
    }

    /// Whether the datagram of this number was sent to the process `who`.
    fn is_to(&self, number: u32, who: u8) -> bool
        ensures { result ≡ is_to who (numbered number self.now.places.items) }
    {
        self.place(number).is_some_and(|place| place.to == who)
    }

    /// Whether the datagram that the step receives, if it receives one, was sent to its process.
    pub fn may_receive(&self, step: &Step) -> bool
        ensures { (line : ℕ) (sent : List Dispatch) → datagrams self.now ≡ map (kept_as line) sent →
            result ≡ may_receive sent step.now step.now.act }
    {
        match step.act {
            Act::Recv(number) => self.is_to(number, step.who),
            _ => true,
        }
    }
}
