//! Reading a whole datagram.

ghost use Rattle.std.specs.Prelude.{◌≡◌, ◌==◌, min, ◌+◌, ◌-◌, ◌<◌, ◌≤◌, ◌^◌, ◌++◌, ℕ, List, length, nat_le, None, IfOk, OnOk, Ok, Err};
ghost use Rattle.tw_types.specs.declared.datagram.Body.TheVariants as bodies;
ghost use Rattle.tw_types.specs.declared.datagram.Datagram.{Datagram};
ghost use Rattle.tw_types.specs.declared.datagram.WireFault.TheVariants.{Short, Long, Kind};
ghost use Rattle.tw_types.specs.Team.{IsSound};
ghost use Rattle.tw_types.specs.Ranges.{DatagramFits};
ghost use Rattle.tw_types.specs.Spelling.{spelling};
ghost use Rattle.std.specs.Int.{w16};
ghost use Rattle.wire_head.specs.Reading.{field_at, text_at, where_allowed};
ghost use Rattle.wire_body.specs.Lists.{counted_at, Leaves};
ghost use Rattle.wire_body.specs.Decisions.{decision_at, decision_size};
ghost use Rattle.wire_body.specs.Reading.{update_at, why_at, election_at, election_of, wanted_at, want_at, want_end, is_total, is_offset_below, piece_at, state_of, ready_at, sync_at, in_body, body_at, whole, datagram_at, blank};

use crate::decisions::{decision_size, fill_decision};
use crate::entries::{entry_at, id_at};
use crate::votes::{no_decision_in, promise_in};
use arrayvec::ArrayVec;
use tw_types::{Body, Datagram, Decision, Entry, Head, Kept, Team, Want, Why, WireFault};
use wire_head::read_head;
use wire_head::reading::{
    byte_to, count_at, positive_at, text_at, u16_at, u32_at, u64_at, where_allowed, zeros_at,
};

/// Makes a list these bytes, in place of those that it held.
fn fill_bytes<const N: usize>(text: &[u8], bytes: &mut ArrayVec<u8, N>)
    requires { length text.now ≤ N }
    ensures { bytes.new ≡ record { items = text.now } }
{
    bytes.clear();
    let _ = bytes.try_extend_from_slice(text);
}

#[tactic(auto, unfolding(crate::specs::Reading::update_at, crate::specs::Lists::counted_at, wire_head::specs::Reading::checked_at))]
fn fill_update(n: u8, bytes: &[u8], kept: &mut Kept) -> Result<(), WireFault>
    ensures { Leaves result kept.new (update_at n bytes.now) }
{
    kept.entry = entry_at(n, false, bytes, 57)?;
    kept.early = false;
    let size = u16_at(bytes, 79)?;
    where_allowed(size <= 128, (), 79)?;
    let payload = text_at(size.into(), bytes, 81)?;
    fill_bytes(payload, &mut kept.payload);
    Ok(())
}

#[tactic(auto, unfolding(crate::specs::Reading::why_at, wire_head::specs::Reading::checked_at))]
fn why_at(bytes: &[u8], place: usize) -> Result<Why, WireFault>
    requires { place < 2 ^ 15 }
    ensures { result ≡ why_at bytes.now place }
{
    let number = byte_to(1, bytes, place)?;
    if number == 0 {
        let group = u64_at(bytes, place + 1)?;
        where_allowed(group == 0, (), place + 1)?;
        Ok(Why::Stuck)
    } else {
        Ok(Why::Join(positive_at(bytes, place + 1)?))
    }
}

#[tactic(auto, unfolding(crate::specs::Reading::want_at, crate::specs::Reading::wanted_at))]
fn want_at(n: u8, bytes: &[u8]) -> Result<Want, WireFault>
    ensures { result ≡ want_at n bytes.now }
{
    let number = byte_to(1, bytes, 57)?;
    if number == 0 {
        Ok(Want::Update(id_at(n, bytes, 58)?))
    } else {
        Ok(Want::Table(positive_at(bytes, 58)?))
    }
}

/// The bytes of the whole state, of which a piece is a part.
#[tactic(auto, unfolding(wire_head::specs::Reading::checked_at))]
fn total_at(bytes: &[u8]) -> Result<u16, WireFault>
    ensures { result ≡ field_at w16 is_total bytes.now 73 }
{
    let total = u16_at(bytes, 73)?;
    where_allowed(1 <= total && total <= 4096, total, 73)
}

/// Where in the state the piece begins.
#[tactic(auto, unfolding(wire_head::specs::Reading::checked_at))]
fn offset_at(total: u16, bytes: &[u8]) -> Result<u16, WireFault>
    ensures exact { result ≡ field_at w16 (is_offset_below total) bytes.now 75 }
    ensures within { IfOk result (λ offset. offset < total) }
{
    let offset = u16_at(bytes, 75)?;
    where_allowed(offset < total && offset % 1024 == 0, offset, 75)
}

/// Makes a list the bytes of a piece, where so many of the state are left, in place of those that it held.
#[tactic(auto, unfolding(crate::specs::Lists::counted_at, wire_head::specs::Reading::checked_at))]
fn fill_text(left: u16, bytes: &[u8], piece: &mut ArrayVec<u8, 1024>) -> Result<(), WireFault>
    ensures { Leaves result piece.new.items (counted_at w16 (λ l. l == min 1024 left) text_at bytes.now 77) }
{
    let size = u16_at(bytes, 77)?;
    where_allowed(size == left.min(1024), (), 77)?;
    let text = text_at(size.into(), bytes, 79)?;
    fill_bytes(text, piece);
    Ok(())
}

/// Makes the parts of a state the ones that the bytes spell, in place of those that were there.
#[tactic(auto, unfolding(crate::specs::Reading::piece_at))]
fn fill_piece(
    bytes: &[u8],
    group: &mut u64,
    position: &mut u64,
    total: &mut u16,
    offset: &mut u16,
    piece: &mut ArrayVec<u8, 1024>,
) -> Result<(), WireFault>
    ensures { Leaves result (record { group = group.new; position = position.new; total = total.new; offset = offset.new; bytes = piece.new.items }) (piece_at bytes.now) }
{
    *group = positive_at(bytes, 57)?;
    *position = count_at(bytes, 65)?;
    *total = total_at(bytes)?;
    *offset = offset_at(*total, bytes)?;
    fill_text(*total - *offset, bytes, piece)
}

#[inline(never)]
fn state_in(head: &Head, bytes: &[u8], datagram: &mut Datagram) -> Result<(), WireFault>
    ensures { Leaves result datagram.new (whole head.now bytes.now (in_body state_of (λ p. 79 + length p.bytes) (piece_at bytes.now))) }
{
    datagram.head = *head;
    if !matches!(datagram.body, Body::State { .. }) {
        datagram.body = Body::State {
            group: 0,
            position: 0,
            total: 0,
            offset: 0,
            bytes: ArrayVec::new(),
        };
    }
    match &mut datagram.body {
        Body::State {
            group,
            position,
            total,
            offset,
            bytes: piece,
        } => {
            fill_piece(bytes, group, position, total, offset, piece)?;
            ends_at(bytes, 79 + piece.len())
        }
        _ => Err(WireFault::Kind),
    }
}

#[tactic(auto, unfolding(crate::specs::Reading::ready_at))]
fn ready_at(bytes: &[u8], place: usize) -> Result<(u64, u64, u64), WireFault>
    requires { place < 2 ^ 15 }
    ensures { result ≡ ready_at bytes.now place }
{
    let group = count_at(bytes, place)?;
    let turn = count_at(bytes, place + 8)?;
    let length = count_at(bytes, place + 16)?;
    Ok((group, turn, length))
}

#[tactic(auto, unfolding(crate::specs::Reading::sync_at, crate::specs::Lists::optional_at, wire_head::specs::Reading::guarded_at))]
fn sync_at(bytes: &[u8]) -> Result<Option<(u64, u64, u64)>, WireFault>
    ensures { result ≡ sync_at bytes.now }
{
    let present = byte_to(1, bytes, 57)?;
    if present == 1 {
        Ok(Some(ready_at(bytes, 58)?))
    } else {
        zeros_at(3, bytes, 58)?;
        Ok(None)
    }
}

/// Nothing follows this place.
pub fn ends_at(bytes: &[u8], end: usize) -> Result<(), WireFault>
    ensures { result ≡ where_allowed (nat_le (length bytes.now) end) Long tt }
{
    if bytes.len() > end {
        return Err(WireFault::Long);
    }
    Ok(())
}

/// Makes a datagram the one with this head and an update.
///
/// Like the readers of the other kinds it fills the datagram where it stands, and makes the body a blank one of the kind
/// only where it is of another, since moving the room of the largest body takes longer than reading a short one. It isn't
/// inlined, since a function pays at entry for the room of all that it may build.
#[inline(never)]
fn update_in(n: u8, head: &Head, bytes: &[u8], datagram: &mut Datagram) -> Result<(), WireFault>
    ensures { Leaves result datagram.new (whole head.now bytes.now (in_body bodies.Update (λ k. 81 + length k.payload.items) (update_at n bytes.now))) }
{
    datagram.head = *head;
    if !matches!(datagram.body, Body::Update(_)) {
        datagram.body = Body::Update(Kept {
            entry: Entry::default(),
            early: false,
            payload: ArrayVec::new(),
        });
    }
    match &mut datagram.body {
        Body::Update(kept) => {
            fill_update(n, bytes, kept)?;
            ends_at(bytes, 81 + kept.payload.len())
        }
        _ => Err(WireFault::Kind),
    }
}

#[inline(never)]
fn decision_in(n: u8, head: &Head, bytes: &[u8], datagram: &mut Datagram) -> Result<(), WireFault>
    requires { n ≤ 15 }
    ensures { Leaves result datagram.new (whole head.now bytes.now (in_body bodies.Decision (λ d. 57 + decision_size d) (decision_at n None None bytes.now 57))) }
{
    datagram.head = *head;
    if !matches!(datagram.body, Body::Decision(_)) {
        datagram.body = Body::Decision(Decision::default());
    }
    match &mut datagram.body {
        Body::Decision(decision) => {
            fill_decision(n, None, None, bytes, 57, decision)?;
            ends_at(bytes, 57 + decision_size(decision))
        }
        _ => Err(WireFault::Kind),
    }
}

#[tactic(auto, unfolding(crate::specs::Reading::election_at))]
#[inline(never)]
fn election_in(head: &Head, bytes: &[u8], datagram: &mut Datagram) -> Result<(), WireFault>
    ensures { Leaves result datagram.new (whole head.now bytes.now (in_body election_of (λ e. 74) (election_at bytes.now))) }
{
    datagram.head = *head;
    if !matches!(datagram.body, Body::Election { .. }) {
        datagram.body = Body::Election {
            number: 0,
            why: Why::Stuck,
        };
    }
    match &mut datagram.body {
        Body::Election { number, why } => {
            *number = positive_at(bytes, 57)?;
            *why = why_at(bytes, 65)?;
            ends_at(bytes, 74)
        }
        _ => Err(WireFault::Kind),
    }
}

#[inline(never)]
fn ask_in(n: u8, head: &Head, bytes: &[u8], datagram: &mut Datagram) -> Result<(), WireFault>
    ensures { Leaves result datagram.new (whole head.now bytes.now (in_body bodies.Ask want_end (want_at n bytes.now))) }
{
    datagram.head = *head;
    if !matches!(datagram.body, Body::Ask(_)) {
        datagram.body = Body::Ask(Want::Table(0));
    }
    match &mut datagram.body {
        Body::Ask(want) => {
            *want = want_at(n, bytes)?;
            ends_at(bytes, want_end(want))
        }
        _ => Err(WireFault::Kind),
    }
}

#[inline(never)]
fn sync_in(head: &Head, bytes: &[u8], datagram: &mut Datagram) -> Result<(), WireFault>
    ensures { Leaves result datagram.new (whole head.now bytes.now (in_body bodies.Sync (λ r. 82) (sync_at bytes.now))) }
{
    datagram.head = *head;
    if !matches!(datagram.body, Body::Sync { .. }) {
        datagram.body = Body::Sync { ready: None };
    }
    match &mut datagram.body {
        Body::Sync { ready } => {
            *ready = sync_at(bytes)?;
            ends_at(bytes, 82)
        }
        _ => Err(WireFault::Kind),
    }
}

/// Makes a datagram the one with this head, and a body of this kind that ends with the bytes.
#[tactic(auto, unfolding(crate::specs::Reading::body_at))]
fn body_in(
    n: u8,
    head: &Head,
    kind: u8,
    bytes: &[u8],
    datagram: &mut Datagram,
) -> Result<(), WireFault>
    requires { n ≤ 15 }
    ensures { Leaves result datagram.new (whole head.now bytes.now (body_at n head.now kind bytes.now)) }
{
    match kind {
        1 => update_in(n, head, bytes, datagram),
        2 => decision_in(n, head, bytes, datagram),
        3 => no_decision_in(n, head, bytes, datagram),
        4 => election_in(head, bytes, datagram),
        5 => promise_in(n, head, bytes, datagram),
        6 => ask_in(n, head, bytes, datagram),
        7 => state_in(head, bytes, datagram),
        8 => sync_in(head, bytes, datagram),
        // The head has one of the eight.
        _ => Err(WireFault::Kind),
    }
}

fn want_end(want: &Want) -> usize
    ensures { result ≡ want_end want.now }
{
    match want {
        Want::Update(_) => 71,
        Want::Table(_) => 66,
    }
}

#[tactic(auto, unfolding(crate::specs::Reading::datagram_at))]
fn all_into(team: &Team, bytes: &[u8], datagram: &mut Datagram) -> Result<(), WireFault>
    requires { IsSound team.now }
    ensures exact { Leaves result datagram.new (datagram_at team.now bytes.now) }
    ensures line { team.now.line < 2 ^ 32 }
    ensures size { team.now.n < 2 ^ 8 }
{
    // The proofs take from this that the line is a number of four bytes.
    let _line = team.line;
    let (head, kind) = read_head(team, bytes)?;
    body_in(team.n, &head, kind, bytes, datagram)
}

/// Makes a datagram the one that the bytes spell, all of the bytes. Its place is used again: nothing of what it held stays.
/// After a fault it is any datagram.
///
/// The fault is the first one from left to right. Short comes where the bytes end within a field, Version where the
/// version isn't 1, Kind where the kind isn't 1 to 8, Line where the line isn't that of the team, `Field` with the place
/// of the field's first byte for another value that isn't allowed, and Long where bytes follow the last field.
pub fn read_into(team: &Team, bytes: &[u8], datagram: &mut Datagram) -> Result<(), WireFault>
    requires { IsSound team.now }
    // What is read is spelled so.
    ensures found { OnOk result (DatagramFits team.now.n datagram.new × (bytes.now ≡ spelling team.now.line datagram.new)) }
    // What is spelled so is read.
    ensures only { (d : Datagram) → DatagramFits team.now.n d → bytes.now ≡ spelling team.now.line d → (result ≡ Ok tt) × (datagram.new ≡ d) }
    // What ends within such a spelling is cut short.
    ensures cut { (d : Datagram) (more : List ℕ) → DatagramFits team.now.n d → 0 < length more → spelling team.now.line d ≡ bytes.now ++ more → result ≡ Err Short }
    // What goes on behind one is too long.
    ensures longer { (d : Datagram) (more : List ℕ) → DatagramFits team.now.n d → 0 < length more → bytes.now ≡ spelling team.now.line d ++ more → result ≡ Err Long }
    // Which fault it is.
    ensures exact { Leaves result datagram.new (datagram_at team.now bytes.now) }
{
    all_into(team, bytes, datagram)
}

/// A datagram to read into: a sign of life of process 0.
pub fn blank() -> Datagram
    ensures { result ≡ blank }
{
    let head = Head {
        from: 0,
        to: 0,
        incarnation: 0,
        sent: 0,
        interval: None,
        echo: None,
    };
    let body = Body::Sync { ready: None };
    Datagram { head, body }
}

/// The datagram that the bytes spell, all of the bytes.
///
/// The fault is the first one from left to right, as `read_into` says.
pub fn read(team: &Team, bytes: &[u8]) -> Result<Datagram, WireFault>
    requires { IsSound team.now }
    // What is read is spelled so.
    ensures found { IfOk result (λ d. DatagramFits team.now.n d × (bytes.now ≡ spelling team.now.line d)) }
    // What is spelled so is read.
    ensures only { (d : Datagram) → DatagramFits team.now.n d → bytes.now ≡ spelling team.now.line d → result ≡ Ok d }
    // What ends within such a spelling is cut short.
    ensures cut { (d : Datagram) (more : List ℕ) → DatagramFits team.now.n d → 0 < length more → spelling team.now.line d ≡ bytes.now ++ more → result ≡ Err Short }
    // What goes on behind one is too long.
    ensures longer { (d : Datagram) (more : List ℕ) → DatagramFits team.now.n d → 0 < length more → bytes.now ≡ spelling team.now.line d ++ more → result ≡ Err Long }
    // Which fault it is.
    ensures exact { result ≡ datagram_at team.now bytes.now }
{
    let mut datagram = blank();
    read_into(team, bytes, &mut datagram)?;
    Ok(datagram)
}
