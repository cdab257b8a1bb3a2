//! Writing a whole datagram.

ghost use Rattle.std.specs.Prelude.{◌≡◌, ◌+◌, ◌≤◌, ◌++◌, length, drop};
ghost use Rattle.std.specs.Int.{w16};
ghost use Rattle.tw_types.specs.Team.{IsSound};
ghost use Rattle.tw_types.specs.Bytes.{counted};
ghost use Rattle.tw_types.specs.Ranges.{DatagramFits};
ghost use Rattle.tw_types.specs.Spelling.{spelling, kind_of, verbatim, update_bytes, why_number, why_group, why_bytes, election_bytes, want_bytes, state_bytes, ready_bytes, sync_bytes, body_bytes};
ghost use Rattle.wire_head.specs.Writing.{Writes};

use crate::decisions::put_decision;
use crate::entries::{put_entry, put_id};
use crate::votes::{put_no_decision, put_promise};
use tw_types::{Body, Datagram, Kept, Team, Want, Why};
use wire_head::write_head;
use wire_head::writing::{put_byte, put_text, put_u16, put_u32, put_u64, put_zeros};

/// Bytes behind their number, which is written in two bytes.
fn put_counted(out: &mut [u8; 4096], place: usize, text: &[u8]) -> usize
    requires size { length text.now ≤ 1024 }
    requires room { place + 2 + length text.now ≤ 4096 }
    ensures end { result ≡ place + 2 + length text.now }
    ensures text { Writes out.old place (counted w16 verbatim text.now) out.new result }
{
    let place = put_u16(out, place, text.len() as u16);
    put_text(out, place, text)
}

fn put_update(out: &mut [u8; 4096], kept: &Kept) -> usize
    requires { length kept.now.payload.items ≤ 128 }
    ensures { Writes out.old 57 (update_bytes kept.now) out.new result }
{
    let place = put_entry(out, 57, &kept.entry);
    put_counted(out, place, kept.payload.as_slice())
}

fn why_number(why: Why) -> u8
    ensures { result ≡ why_number why }
{
    match why {
        Why::Stuck => 0,
        Why::Join(_) => 1,
    }
}

fn why_group(why: Why) -> u64
    ensures { result ≡ why_group why }
{
    match why {
        Why::Stuck => 0,
        Why::Join(group) => group,
    }
}

fn put_why(out: &mut [u8; 4096], place: usize, why: Why) -> usize
    requires { place + 9 ≤ 4096 }
    ensures end { result ≡ place + 9 }
    ensures text { Writes out.old place (why_bytes why) out.new result }
{
    let place = put_byte(out, place, why_number(why));
    put_u64(out, place, why_group(why))
}

fn put_election(out: &mut [u8; 4096], number: u64, why: Why) -> usize
    ensures { Writes out.old 57 (election_bytes number why) out.new result }
{
    let place = put_u64(out, 57, number);
    put_why(out, place, why)
}

fn put_want(out: &mut [u8; 4096], want: &Want) -> usize
    ensures { Writes out.old 57 (want_bytes want.now) out.new result }
{
    match want {
        Want::Update(id) => {
            let place = put_byte(out, 57, 0);
            put_id(out, place, id)
        }
        Want::Table(group) => {
            let place = put_byte(out, 57, 1);
            put_u64(out, place, *group)
        }
    }
}

fn put_state(
    out: &mut [u8; 4096],
    group: u64,
    position: u64,
    total: u16,
    offset: u16,
    piece: &[u8],
) -> usize
    requires { length piece.now ≤ 1024 }
    ensures { Writes out.old 57 (state_bytes group position total offset piece.now) out.new result }
{
    let place = put_u64(out, 57, group);
    let place = put_u64(out, place, position);
    let place = put_u16(out, place, total);
    let place = put_u16(out, place, offset);
    put_counted(out, place, piece)
}

fn put_ready(out: &mut [u8; 4096], place: usize, ready: (u64, u64, u64)) -> usize
    requires { place + 24 ≤ 4096 }
    ensures { Writes out.old place (ready_bytes ready) out.new result }
{
    let (group, turn, length) = ready;
    let place = put_u64(out, place, group);
    let place = put_u64(out, place, turn);
    put_u64(out, place, length)
}

fn put_sync(out: &mut [u8; 4096], ready: Option<(u64, u64, u64)>) -> usize
    ensures { Writes out.old 57 (sync_bytes ready) out.new result }
{
    match ready {
        None => {
            let place = put_byte(out, 57, 0);
            put_zeros(out, place, 3)
        }
        Some(ready) => {
            let place = put_byte(out, 57, 1);
            put_ready(out, place, ready)
        }
    }
}

/// The number of a body's kind.
fn kind_of(body: &Body) -> u8
    ensures exact { result ≡ kind_of body.now }
    ensures first { 1 ≤ result }
    ensures last { result ≤ 8 }
{
    match body {
        Body::Update(_) => 1,
        Body::Decision(_) => 2,
        Body::NoDecision { .. } => 3,
        Body::Election { .. } => 4,
        Body::Promise { .. } => 5,
        Body::Ask(_) => 6,
        Body::State { .. } => 7,
        Body::Sync { .. } => 8,
    }
}

fn put_body(team: &Team, d: &Datagram, out: &mut [u8; 4096]) -> usize
    requires size { team.now.n ≤ 15 }
    requires fits { DatagramFits team.now.n d.now }
    ensures { Writes out.old 57 (body_bytes d.now.body) out.new result }
{
    match &d.body {
        Body::Update(kept) => put_update(out, kept),
        Body::Decision(decision) => put_decision(out, 57, decision),
        Body::NoDecision {
            number,
            group,
            turn,
            skip,
            reports,
            best,
        } => put_no_decision(out, *number, *group, *turn, *skip, reports, best),
        Body::Election { number, why } => put_election(out, *number, *why),
        Body::Promise {
            number,
            report,
            decision,
        } => put_promise(out, *number, report, decision),
        Body::Ask(want) => put_want(out, want),
        Body::State {
            group,
            position,
            total,
            offset,
            bytes,
        } => put_state(out, *group, *position, *total, *offset, bytes.as_slice()),
        Body::Sync { ready } => put_sync(out, *ready),
    }
}

/// Writes the one spelling of a datagram at the front of the buffer, and answers its length. The rest of the buffer stays
/// as it was.
///
/// Each field must be in its range.
pub fn write(team: &Team, d: &Datagram, out: &mut [u8; 4096]) -> usize
    requires team { IsSound team.now }
    requires fits { DatagramFits team.now.n d.now }
    ensures bytes { out.new ≡ spelling team.now.line d.now ++ drop result out.old }
    ensures length { result ≡ length (spelling team.now.line d.now) }
{
    write_head(team, &d.head, kind_of(&d.body), out);
    put_body(team, d, out)
}
