//! Datagrams at random, there and back.

ghost use Rattle.tw_types.specs.Team.{IsSound};

use crate::page::ROOM;
use crate::team::team_of;
use crate::texts::Maker;
use std::fmt;
use tw_types::{Team, WireFault};
use wire_body::{read, write};

/// What came of all rounds.
#[derive(Clone, Copy)]
pub struct Outcome {
    rounds: u32,
    /// Texts that were read, and written again as the same bytes.
    same: u64,
    /// Texts that were refused.
    refused: u64,
    /// Texts that were read and written otherwise. There are none.
    other: u64,
    /// A sum over all lengths and faults, in their order.
    sum: u64,
}

impl fmt::Display for Outcome {
    fn fmt<W: fmt::Write>(&self, f: &mut fmt::Formatter<W>) -> fmt::Result {
        write!(
            f,
            "rounds {} same {} refused {} other {} sum {}",
            self.rounds, self.same, self.refused, self.other, self.sum
        )
    }
}

/// A number for a fault, above each length.
fn number_of(fault: WireFault) -> u64 {
    match fault {
        WireFault::Short => 10_000,
        WireFault::Long => 10_001,
        WireFault::Version => 10_002,
        WireFault::Kind => 10_003,
        WireFault::Line => 10_004,
        WireFault::Field(place) => 20_000 + u64::from(place),
    }
}

impl Outcome {
    fn add(&mut self, number: u64) {
        self.sum = self.sum.wrapping_mul(31).wrapping_add(number);
    }

    /// Reads the bytes and writes what was read.
    fn take(&mut self, team: &Team, text: &[u8])
        requires { IsSound team.now }
    {
        match read(team, text) {
            Ok(datagram) => {
                let mut out = [0; ROOM];
                let length = write(team, &datagram, &mut out);
                if out.get(..length) == Some(text) {
                    self.same = self.same.saturating_add(1);
                } else {
                    self.other = self.other.saturating_add(1);
                }
                self.add(length as u64);
            }
            Err(fault) => {
                self.refused = self.refused.saturating_add(1);
                self.add(number_of(fault));
            }
        }
    }

    /// A datagram, the same cut, the same with a zero behind it, and the same with a byte changed.
    fn round(&mut self, maker: &mut Maker) {
        let team = team_of(maker.next());
        let end = maker.page.end;
        self.take(&team, maker.page.text(end));
        let cut = maker.draw.below(end as u64) as usize;
        self.take(&team, maker.page.text(cut));
        maker.page.put(1, 0);
        self.take(&team, maker.page.text(maker.page.end));
        let place = maker.draw.below(end as u64) as usize;
        let change = 1 + maker.draw.below(255);
        if let Some(byte) = maker.page.bytes.get_mut(place) {
            *byte ^= change as u8;
        }
        self.take(&team, maker.page.text(end));
    }
}

/// So many rounds.
pub fn all(rounds: u32) -> Outcome {
    let mut maker = Maker::new(1);
    let mut outcome = Outcome {
        rounds,
        same: 0,
        refused: 0,
        other: 0,
        sum: 0,
    };
    for _ in 0..rounds {
        outcome.round(&mut maker);
    }
    outcome
}
