//! Calls of `wire_head` and `wire_body`.
//!
//! `team`, `text` and `add` spell a text; the others read it, and leave it as it is. `keep` puts it behind the kept ones,
//! of which `into` reads two into one place.

ghost use Rattle.std.specs.Prelude.{IfOk};
ghost use Rattle.tw_types.specs.Team.{IsSound};
ghost use Rattle.tw_types.specs.Ranges.{DatagramFits};

use call_words::{Calls, Words, shown};
use std::alloc::{AllocError, Global};
use tw_types::{Datagram, Head, Team, WireFault};
use wire_body::{blank, read, read_into, write};
use wire_head::read_head;

/// A team of three, with a quarantine that is long enough for fifteen.
const THREE: Team = Team {
    quarantine: 2_304_003,
    ..Team::OF_THREE
};

/// What is read of the bytes before this place.
fn read_front(team: &Team, bytes: &[u8], end: usize) -> Result<Datagram, WireFault>
    requires { IsSound team.now }
    ensures { IfOk result (DatagramFits team.now.n) }
{
    read(team, bytes.get(..end).unwrap_or(bytes))
}

/// Whether it is read, or why it isn't.
fn outcome(team: &Team, bytes: &[u8], end: usize) -> Result<(), WireFault>
    requires { IsSound team.now }
{
    match read_front(team, bytes, end) {
        Ok(_) => Ok(()),
        Err(fault) => Err(fault),
    }
}

/// The next word as bytes in hex, with `_` between any two.
fn hex(alloc: Global, words: &mut Words<'_>) -> Result<Vec<u8>, AllocError> {
    let mut bytes = Vec::new(alloc);
    for part in words.word().split('_') {
        match hex::decode(alloc, part) {
            Ok(more) => bytes.extend_from_slice(&more)?,
            Err(_) => words.are_wrong = true,
        }
    }
    Ok(bytes)
}

/// Puts these bytes over those from this place on.
fn put_over(bytes: &mut [u8], place: usize, others: &[u8]) {
    let mut place = place;
    for other in others {
        if let Some(byte) = bytes.get_mut(place) {
            *byte = *other;
        }
        place = place.saturating_add(1);
    }
}

/// Whether all bytes from this place on are 255.
fn is_left(bytes: &[u8], place: usize) -> bool {
    for byte in bytes.get(place..).unwrap_or(&[]) {
        if *byte != 255 {
            return false;
        }
    }
    true
}

/// What the last lines spelled, and what they kept.
#[derive(Drop)]
pub struct Texts {
    team: Team,
    bytes: Vec<u8>,
    kept: Vec<Vec<u8>>,
    place: Datagram,
    ghost sound: { IsSound team },
}

impl Calls for Texts {
    fn call(&mut self, rt: &HostRuntime, words: &mut Words<'_>) -> Result<String, AllocError> {
        let alloc = rt.alloc();
        let calls = [
            "read", "fault", "head", "again", "cuts", "altered", "into", "team", "text", "add",
            "keep",
        ];
        words.among(&["wire"]);
        match words.among(&calls) {
            0 => shown(alloc, &self.read()),
            1 => self.fault(alloc),
            2 => shown(alloc, &self.head()),
            3 => self.again(alloc),
            4 => shown(alloc, &self.cuts()),
            5 => self.altered(alloc, words),
            6 => self.both_into(alloc, words),
            place => {
                self.spell(alloc, place, words)?;
                Ok(String::new(alloc))
            }
        }
    }
}

impl Texts {
    pub fn new(alloc: Global) -> Texts {
        Texts {
            team: THREE,
            bytes: Vec::new(alloc),
            kept: Vec::new(alloc),
            place: blank(),
        }
    }

    /// Spells by the call at this place among those of `call`.
    fn spell(
        &mut self,
        alloc: Global,
        place: usize,
        words: &mut Words<'_>,
    ) -> Result<(), AllocError> {
        match place {
            7 => self.set_team(words),
            8 => {
                self.bytes.clear();
                return self.add(alloc, 1, words);
            }
            9 => {
                let times = words.count();
                return self.add(alloc, times, words);
            }
            10 => return self.keep(),
            _ => {}
        }
        Ok(())
    }

    /// The next word is the size of the team.
    fn set_team(&mut self, words: &mut Words<'_>) {
        let team = Team {
            n: words.byte(15),
            ..THREE
        };
        if team.check().is_ok() {
            self.team = team;
        } else {
            words.are_wrong = true;
        }
    }

    /// Puts the next word's bytes so many times behind the others.
    fn add(
        &mut self,
        alloc: Global,
        times: usize,
        words: &mut Words<'_>,
    ) -> Result<(), AllocError> {
        let bytes = hex(alloc, words)?;
        for _ in 0..times {
            self.bytes.extend_from_slice(&bytes)?;
        }
        Ok(())
    }

    fn keep(&mut self) -> Result<(), AllocError> {
        self.kept.push(self.bytes.clone()?)?;
        Ok(())
    }

    fn read(&self) -> Result<Datagram, WireFault>
        ensures { IfOk result (DatagramFits self.now.team.n) }
    {
        read_front(&self.team, &self.bytes, self.bytes.len())
    }

    /// The fault in words.
    fn fault(&self, alloc: Global) -> Result<String, AllocError> {
        match outcome(&self.team, &self.bytes, self.bytes.len()) {
            Ok(()) => Ok(String::new(alloc)),
            Err(fault) => format!(in alloc; "{fault}"),
        }
    }

    /// What is read of the first 57 bytes.
    fn head(&self) -> Result<(Head, u8), WireFault> {
        read_head(&self.team, self.bytes.get(..57).unwrap_or(&[]))
    }

    /// The length of what is written of what is read; whether it is the same bytes, the rest of the buffer stays as it was,
    /// and a copy is equal.
    fn again(&self, alloc: Global) -> Result<String, AllocError> {
        match self.read() {
            Ok(datagram) => {
                let mut out = [255; 4096];
                let length = write(&self.team, &datagram, &mut out);
                let is_same = out.get(..length) == Some(self.bytes.as_slice());
                let is_left = is_left(&out, length);
                let is_equal = datagram.copy() == datagram;
                format!(in alloc; "{length} {is_same} {is_left} {is_equal}")
            }
            Err(fault) => shown(alloc, &fault),
        }
    }

    /// How many of the shorter texts are cut short.
    fn cuts(&self) -> u64 {
        let mut cuts = 0u64;
        for end in 0..self.bytes.len() {
            if outcome(&self.team, &self.bytes, end) == Err(WireFault::Short) {
                cuts = cuts.saturating_add(1);
            }
        }
        cuts
    }

    /// What is read where other bytes stand at a place, and whether it is so where the text ends right behind them.
    fn altered(&self, alloc: Global, words: &mut Words<'_>) -> Result<String, AllocError> {
        let place = words.count();
        let others = hex(alloc, words)?;
        let mut bytes = self.bytes.clone()?;
        put_over(&mut bytes, place, &others);
        let end = place.saturating_add(others.len());
        let whole = outcome(&self.team, &bytes, bytes.len());
        let front = outcome(&self.team, &bytes, end);
        let here = if front == whole { " here" } else { "" };
        format!(in alloc; "{whole:?}{here}")
    }

    /// Reads one kept text into the place, and another one behind it.
    fn both_into(&mut self, alloc: Global, words: &mut Words<'_>) -> Result<String, AllocError> {
        let first = words.count();
        let second = words.count();
        let first = self.is_read_into(first);
        let second = self.is_read_into(second);
        format!(in alloc; "{first} {second}")
    }

    /// Whether the place is what is read of this kept text.
    fn is_read_into(&mut self, number: usize) -> bool {
        match self.kept.get(number) {
            Some(text) => {
                let answer = read_into(&self.team, text, &mut self.place);
                match read(&self.team, text) {
                    Ok(fresh) => answer.is_ok() && fresh == self.place,
                    Err(_) => false,
                }
            }
            None => false,
        }
    }
}
