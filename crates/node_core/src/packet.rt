//! Which packets a process takes.

ghost use Rattle.std.specs.Prelude.{◌≡◌, ◌<◌, OnOk};
ghost use Rattle.tw_machine.specs.Packet.{is_taken, is_stranger, admitted};
ghost use Rattle.tw_types.specs.Ranges.{DatagramFits};
ghost use Rattle.tw_types.specs.Team.{IsSound};
ghost use Rattle.wire_body.specs.Reading.{datagram_at};
ghost use Rattle.node_core.specs.Inbox.{taken_in};

use tw_types::{Body, Datagram, Head, Reason, Team, WireFault};
use wire_body::read_into;

/// Whether processes take such a datagram today.
fn is_taken(body: &Body) -> bool
    ensures { result ≡ is_taken body.now }
{
    match body {
        Body::Update(_)
        | Body::Decision(_)
        | Body::Election { .. }
        | Body::Promise { .. }
        | Body::Ask(_)
        | Body::Sync { .. } => true,
        Body::NoDecision { .. } | Body::State { .. } => false,
    }
}

/// Whether a datagram is of no other process of the team, or is for another one than `me`.
fn is_stranger(n: u8, me: u8, head: &Head) -> bool
    ensures { result ≡ is_stranger n me head.now }
{
    n <= head.from || head.from == me || head.to != me
}

/// Reads into the inbox the datagram that a packet's bytes spell, where the process `me` takes it, or answers why it doesn't.
pub fn admitted(team: &Team, me: u8, bytes: &[u8], inbox: &mut Datagram) -> Result<(), Reason>
    requires { IsSound team.now }
    ensures exact { taken_in result inbox.new ≡ admitted team.now.n me (datagram_at team.now bytes.now) }
    ensures fits { OnOk result (DatagramFits team.now.n inbox.new) }
    ensures from { OnOk result (inbox.new.head.from < team.now.n) }
{
    read_into(team, bytes, inbox).map_err(Reason::Wire)?;
    if !is_taken(&inbox.body) {
        return Err(Reason::Wire(WireFault::Kind));
    }
    if is_stranger(team.n, me, &inbox.head) {
        return Err(Reason::Stranger);
    }
    Ok(())
}
