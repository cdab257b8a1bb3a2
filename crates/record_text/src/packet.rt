//! Datagrams, spelled once: for the record and for the link.

ghost use Rattle.std.specs.Prelude.{◌≡◌, ◌≤◌, ◌<◌, ◌^◌, ℕ, List, get_or, Ok};
ghost use Rattle.tw_types.specs.Team.{IsSound};
ghost use Rattle.tw_types.specs.Ranges.{DatagramFits};
ghost use Rattle.tw_types.specs.Spelling.{spelling};
ghost use Rattle.tw_machine.specs.Types.{Team as TeamSeen, Datagram as DatagramSeen};
ghost use Rattle.wire_body.specs.Reading.{datagram_at};

use tw_types::{Datagram, Team};
use wire_body::write;

/// A datagram's bytes, and the process that they are sent to.
#[derive(Drop)]
pub struct Packet {
    pub to: u8,
    /// How many bytes it has, at most 4,096.
    pub len: usize,
    /// Its bytes, and behind them others that say nothing.
    pub bytes: [u8; 4096],
    ghost fits: { len ≤ 4096 },
}

impl Packet {
    ghost use Rattle.std.specs.Prelude.{length};
    ghost use Rattle.record_text.specs.Packets.{packet_seen};

    /// The one spelling of a datagram, whose fields must each be in their range.
    pub fn of(team: &Team, to: u8, datagram: &Datagram) -> Packet
        requires team { IsSound team.now }
        requires fits { DatagramFits team.now.n datagram.now }
        ensures { packet_seen result ≡ (to, spelling team.now.line datagram.now) }
    {
        let mut bytes = [0; 4096];
        let len = write(team, datagram, &mut bytes);
        Packet { to, len, bytes }
    }

    /// The datagram's bytes alone.
    pub fn bytes(&self) -> &[u8]
        ensures bytes { (packet_seen self.now).1 ≡ result.now }
        ensures few { length result.now ≤ 4096 }
    {
        &self.bytes[..self.len]
    }
}

/// Bytes that spell a datagram are read as it.
pub fn spelled_datagrams_are_read()
    ensures { (team : TeamSeen) (d : DatagramSeen) (bytes : List ℕ) → IsSound team → team.line < 2 ^ 32 → DatagramFits team.n d →
        ((i : ℕ) → get_or bytes i 0 < 256) → bytes ≡ spelling team.line d → datagram_at team bytes ≡ Ok d }
{}
