//! Datagrams of a process, spelled and sent.

ghost use Rattle.std.specs.Prelude.{◌≡◌, ◌≤◌, map, length};
ghost use Rattle.std.specs.List.{AllByRecursion};
ghost use Rattle.tw_types.specs.Team.{IsSound};
ghost use Rattle.node_core.specs.Sends.{IsSendable};
ghost use Rattle.schedule_text.specs.Puts.{Puts};
ghost use Rattle.record_text.specs.Packets.{packet_seen};
ghost use Rattle.node_loop.specs.Calls.{spelled, calls_of_packets, Sent, IsReachable};

use record_text::Packet;
use schedule_text::write_all;
use tw_io::{Addr, Link, Sink, WriteFailed};
use tw_types::{Datagram, Listed, Team};

/// Room for the datagrams of an event.
pub type Packets = Listed<Packet, 64>;

/// Spells datagrams, each once.
pub fn spell(team: &Team, sends: &[(u8, Datagram)], packets: &mut Packets)
    requires team { IsSound team.now }
    requires few { length sends.now ≤ 64 }
    requires fits { AllByRecursion (IsSendable team.now.n) sends.now }
    ensures spelled { map packet_seen packets.new ≡ map (spelled team.now.line) sends.now }
    ensures reachable { AllByRecursion (IsReachable team.now.n) (map packet_seen packets.new) }
{
    packets.clear();
    for (to, datagram) in sends {
        packets.push(Packet::of(team, *to, datagram));
    }
}

/// Sends packets, each to its process. What fails is lost.
pub fn send_all<L: Link>(link: &mut L, peers: &[Addr], packets: &[Packet])
    requires { AllByRecursion (IsReachable (length peers.now)) (map packet_seen packets.now) }
    ensures sent { Sent (L.sends link.old) (calls_of_packets peers.now (map packet_seen packets.now)) (L.sends link.new) }
    ensures binding { L.binding link.new ≡ L.binding link.old }
    ensures arriving { L.arriving link.new ≡ L.arriving link.old }
    ensures faults { L.faults link.new ≡ L.faults link.old }
{
    for packet in packets {
        let _ = link.send(peers[usize::from(packet.to)], packet.bytes());
    }
}

/// Writes bytes to their end.
pub fn put_all<K: Sink>(sink: &mut K, bytes: &[u8]) -> Result<(), WriteFailed>
    ensures { Puts (K.taken sink.old) (K.taken sink.new) (K.faults sink.old) (K.faults sink.new) result bytes.now }
{
    write_all(sink, bytes)
}
