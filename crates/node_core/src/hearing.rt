//! What an event tells of time.

ghost use Rattle.std.specs.Prelude.{◌≡◌, ◌<◌, ◌^◌, IfOk, IfSome};
ghost use Rattle.tw_num.specs.Clock.{IsNotBefore};
ghost use Rattle.tw_types.specs.declared.datagram.Datagram.{Datagram as DatagramSeen};
ghost use Rattle.tw_types.specs.Process.{Timing as Known};
ghost use Rattle.tw_types.specs.Ranges.{DatagramFits};
ghost use Rattle.tw_types.specs.Team.{IsSound};
ghost use Rattle.tw_machine.specs.Packet.{admitted};
ghost use Rattle.tw_machine.specs.Hearing.{learn_packet, learn, unless_dropped};
ghost use Rattle.wire_body.specs.Reading.{datagram_at};
ghost use Rattle.node_core.specs.Events.{event_seen, IsGivable};
ghost use Rattle.node_core.specs.Inbox.{packet_if, packet_in};
ghost use Rattle.node_core.specs.StandsFor.{TimingStandsFor};

use crate::packet::admitted;
use crate::process::Event;
use crate::timing::Timing;
use tw_types::{Datagram, Echo, Reason, Team};

/// What is left of an event: whether it has a packet, which stands in the inbox, or why it is dropped.
fn unless_dropped(dropped: Option<Reason>, has_packet: bool) -> Result<bool, Reason>
    ensures { (inbox : DatagramSeen) → packet_in result inbox ≡ unless_dropped dropped (packet_if has_packet inbox) }
{
    match dropped {
        None => Ok(has_packet),
        Some(reason) => Err(reason),
    }
}

/// Reads a packet into the inbox. Notes the stamp of one that is taken, and then gives the clock what it tells. Answers that
/// the packet stands in the inbox, or why it is dropped.
fn learn_packet(
    team: &Team,
    me: u8,
    timing: &mut Timing,
    inbox: &mut Datagram,
    bytes: &[u8],
    h: u64,
) -> Result<bool, Reason>
    requires sound { IsSound team.now }
    requires reading { h < 2 ^ 60 }
    ensures stands { (t : Known) → TimingStandsFor team.now timing.old t → IsNotBefore h t.clock →
        TimingStandsFor team.now timing.new (learn_packet team.now h (admitted team.now.n me (datagram_at team.now bytes.now)) t).timing }
    ensures packet { (t : Known) → TimingStandsFor team.now timing.old t → IsNotBefore h t.clock →
        packet_in result inbox.new ≡ (learn_packet team.now h (admitted team.now.n me (datagram_at team.now bytes.now)) t).packet }
    ensures fits { IfOk (packet_in result inbox.new) (λ packet. IfSome packet (DatagramFits team.now.n)) }
    ensures from { IfOk (packet_in result inbox.new) (λ packet. IfSome packet (λ d. d.head.from < team.now.n)) }
{
    admitted(team, me, bytes, inbox)?;
    let head = inbox.head;
    let stamp = Echo { a: head.sent, b: h };
    timing.note(head.from, stamp);
    let dropped = timing.hear(team, h, &head);
    unless_dropped(dropped, true)
}

/// Notes what an event tells of time, and gives it to the clock. Answers whether the event has a packet, which stands in the
/// inbox then, or why the event is dropped.
pub fn learn(
    team: &Team,
    me: u8,
    timing: &mut Timing,
    inbox: &mut Datagram,
    event: Event<'_>,
    h: u64,
) -> Result<bool, Reason>
    requires sound { IsSound team.now }
    requires reading { h < 2 ^ 60 }
    requires givable { IsGivable event }
    ensures stands { (t : Known) → TimingStandsFor team.now timing.old t → IsNotBefore h t.clock →
        TimingStandsFor team.now timing.new (learn team.now me h (event_seen team.now event.entry) t).timing }
    ensures packet { (t : Known) → TimingStandsFor team.now timing.old t → IsNotBefore h t.clock →
        packet_in result inbox.new ≡ (learn team.now me h (event_seen team.now event.entry) t).packet }
    ensures fits { IfOk (packet_in result inbox.new) (λ packet. IfSome packet (DatagramFits team.now.n)) }
    ensures from { IfOk (packet_in result inbox.new) (λ packet. IfSome packet (λ d. d.head.from < team.now.n)) }
{
    match event {
        Event::Tick => Ok(false),
        Event::Packet(bytes) => learn_packet(team, me, timing, inbox, bytes, h),
        Event::Reference { lo, hi } => unless_dropped(timing.refer(h, lo, hi), false),
    }
}
