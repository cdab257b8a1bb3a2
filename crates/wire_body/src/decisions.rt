//! Decisions.

ghost use Rattle.std.specs.Prelude.{◌≡◌, ◌==◌, ◌&&◌, ◌+◌, ◌*◌, ◌<◌, ◌≤◌, ◌^◌, nat_lt, length, Some, IfSome};
ghost use Rattle.std.specs.List.{list_all, list_any};
ghost use Rattle.tw_types.specs.declared.message.Seat.{Seat};
ghost use Rattle.std.proofs.Common.{rules};
ghost use Rattle.tw_types.specs.Bytes.{guarded};
ghost use Rattle.tw_types.specs.Spelling.{support_bytes, seat_bytes, decision_bytes};
ghost use Rattle.wire_head.specs.Writing.{Writes};
ghost use Rattle.wire_body.specs.Lists.{optional_at, Leaves};
ghost use Rattle.wire_body.specs.Decisions.{support_at, is_above, seat_at, seats_at, is_given_at, is_maker, is_ack_within, is_window_count, window_at, mark_at, is_told, told_count_at, told_positive_at, decision_at, decision_size};

use crate::items::{Item, fill_items, presence, put_list};
use arrayvec::ArrayVec;
use tw_types::{Decision, Entry, Member, Seat, Support, TimeMark, WireFault};
use wire_head::reading::{
    byte_at, byte_below, byte_to, count_at, time_at, u32_at, u64_at, where_allowed, zeros_at,
};
use wire_head::writing::{put_byte, put_two, put_u32, put_u64, put_zeros};

#[tactic(auto, unfolding(crate::specs::Lists::optional_at, crate::specs::Decisions::support_at, wire_head::specs::Reading::guarded_at))]
fn support_at(bytes: &[u8], place: usize) -> Result<Option<Support>, WireFault>
    requires { place < 2 ^ 14 + 64 }
    ensures { result ≡ optional_at 2 support_at bytes.now place }
{
    let present = byte_to(1, bytes, place)?;
    if present == 1 {
        let ack = count_at(bytes, place + 1)?;
        let at = count_at(bytes, place + 9)?;
        Ok(Some(Support { ack, at }))
    } else {
        zeros_at(2, bytes, place + 1)?;
        Ok(None)
    }
}

/// Whether the processes of all these seats are below this one.
fn are_below(seats: &[Seat], who: u8) -> bool
    ensures { result ≡ list_all (λ (s : Seat). nat_lt s.member.who who) seats.now }
{
    seats.iter().all(|seat| seat.member.who < who)
}

#[tactic(auto, unfolding(crate::specs::Decisions::seat_at, wire_head::specs::Reading::checked_at))]
fn seat_at(n: u8, before: &[Seat], bytes: &[u8], place: usize) -> Result<Seat, WireFault>
    requires { place < 2 ^ 14 }
    ensures { result ≡ seat_at n before.now bytes.now place }
{
    let who = byte_at(bytes, place)?;
    where_allowed(who < n && are_below(before, who), (), place)?;
    let incarnation = count_at(bytes, place + 1)?;
    let next = u32_at(bytes, place + 9)?;
    where_allowed(1 <= next, (), place + 9)?;
    let support = support_at(bytes, place + 13)?;
    Ok(Seat {
        member: Member { who, incarnation },
        next,
        support,
    })
}

/// A seat, in a team of so many processes.
impl Item for Seat {
    type Rules = u8;

    const SIZE: usize = 30;

    ghost SIZE = { 30 };

    ghost item_at = { seat_at };

    ghost item_bytes = { seat_bytes };

    fn read(n: &u8, before: &[Seat], bytes: &[u8], place: usize) -> Result<Seat, WireFault> {
        seat_at(*n, before, bytes, place)
    }

    fn put(&self, out: &mut [u8; 4096], place: usize) -> usize {
        put_seat(out, place, self)
    }

    ghost small = { Prim.search rules };
}

/// The seats behind their number, which is from a majority of the team to all of it.
#[tactic(auto, unfolding(crate::specs::Decisions::seats_at, crate::specs::Lists::counted_at, wire_head::specs::Reading::checked_at))]
fn fill_seats(
    n: u8,
    bytes: &[u8],
    place: usize,
    seats: &mut ArrayVec<Seat, 15>,
) -> Result<(), WireFault>
    requires size { n ≤ 15 }
    requires place { place < 2 ^ 13 }
    ensures { Leaves result seats.new.items (seats_at n bytes.now place) }
{
    let count = byte_at(bytes, place)?;
    where_allowed(n / 2 + 1 <= count && count <= n, (), place)?;
    fill_items(&n, count, bytes, place + 1, seats)
}

fn is_given_at(made: u64, support: Option<Support>) -> bool
    ensures { result ≡ is_given_at made support }
{
    match support {
        None => false,
        Some(support) => support.at == made,
    }
}

/// Whether the process has a seat with a support of this moment.
fn is_maker(made: u64, seats: &[Seat], who: u8) -> bool
    ensures { result ≡ is_maker made seats.now who }
{
    seats.iter().any(|seat| seat.member.who == who && is_given_at(made, seat.support))
}

fn is_ack_within(end: u64, support: Option<Support>) -> bool
    ensures { result ≡ is_ack_within end support }
{
    match support {
        None => true,
        Some(support) => support.ack <= end,
    }
}

/// Whether no ack of a seat is above this position.
fn are_acks_within(end: u64, seats: &[Seat]) -> bool
    ensures { result ≡ list_all (λ (s : Seat). is_ack_within end s.support) seats.now }
{
    seats.iter().all(|seat| is_ack_within(end, seat.support))
}

/// Whether a window at this position may have so many entries.
fn is_window_count(low: u64, seats: &[Seat], count: u8) -> bool
    requires { low < 2 ^ 60 }
    ensures { result ≡ is_window_count low seats.now count }
{
    let end = low + u64::from(count);
    count <= 32 && end < 1 << 60 && are_acks_within(end, seats)
}

/// The entries behind their number, which is at most 32 and doesn't end the list below a seat's ack.
#[tactic(auto, unfolding(crate::specs::Decisions::window_at, crate::specs::Lists::counted_at, wire_head::specs::Reading::checked_at))]
fn fill_window(
    n: u8,
    low: u64,
    seats: &[Seat],
    bytes: &[u8],
    place: usize,
    window: &mut ArrayVec<Entry, 32>,
) -> Result<(), WireFault>
    requires low { low < 2 ^ 60 }
    requires place { place < 2 ^ 13 }
    ensures { Leaves result window.new.items (window_at n low seats.now bytes.now place) }
{
    let count = byte_at(bytes, place)?;
    where_allowed(is_window_count(low, seats, count), (), place)?;
    fill_items(&n, count, bytes, place + 1, window)
}

#[tactic(auto, unfolding(crate::specs::Decisions::mark_at))]
fn mark_at(n: u8, bytes: &[u8], place: usize) -> Result<TimeMark, WireFault>
    requires { place < 2 ^ 14 }
    ensures { result ≡ mark_at n bytes.now place }
{
    let stamp = count_at(bytes, place)?;
    let who = byte_below(n, bytes, place + 8)?;
    let seq = u32_at(bytes, place + 9)?;
    Ok(TimeMark { stamp, who, seq })
}

/// Whether it is the value that was told, where one was.
pub fn is_told(told: Option<u64>, number: u64) -> bool
    ensures { result ≡ is_told told number }
{
    match told {
        None => true,
        Some(told) => number == told,
    }
}

/// A count, and the one that was told, where one was.
#[tactic(auto, unfolding(wire_head::specs::Reading::checked_at))]
pub fn told_count_at(told: Option<u64>, bytes: &[u8], place: usize) -> Result<u64, WireFault>
    requires { place < 2 ^ 15 }
    ensures { result ≡ told_count_at told bytes.now place }
{
    let count = u64_at(bytes, place)?;
    where_allowed(count < 1 << 60 && is_told(told, count), count, place)
}

/// The same of a count that isn't 0.
#[tactic(auto, unfolding(wire_head::specs::Reading::checked_at))]
fn told_positive_at(told: Option<u64>, bytes: &[u8], place: usize) -> Result<u64, WireFault>
    requires { place < 2 ^ 15 }
    ensures { result ≡ told_positive_at told bytes.now place }
{
    let count = u64_at(bytes, place)?;
    where_allowed(
        1 <= count && count < 1 << 60 && is_told(told, count),
        count,
        place,
    )
}

/// Makes a decision the one at a place, in place of what it was. Its group and its turn are those that were told, where they were.
#[tactic(auto, unfolding(crate::specs::Decisions::decision_at, wire_head::specs::Reading::checked_at))]
pub fn fill_decision(
    n: u8,
    told_group: Option<u64>,
    told_turn: Option<u64>,
    bytes: &[u8],
    place: usize,
    decision: &mut Decision,
) -> Result<(), WireFault>
    requires size { n ≤ 15 }
    requires place { place < 2 ^ 12 }
    ensures { Leaves result decision.new (decision_at n told_group told_turn bytes.now place) }
{
    decision.group = told_positive_at(told_group, bytes, place)?;
    decision.turn = told_count_at(told_turn, bytes, place + 8)?;
    decision.made = count_at(bytes, place + 16)?;
    decision.start = time_at(bytes, place + 24)?;
    decision.low = count_at(bytes, place + 32)?;
    decision.mark = mark_at(n, bytes, place + 40)?;
    fill_seats(n, bytes, place + 53, &mut decision.seats)?;
    let seats = decision.seats.as_slice();
    let behind = place + 54 + 30 * seats.len();
    let maker = byte_at(bytes, behind)?;
    where_allowed(is_maker(decision.made, seats, maker), (), behind)?;
    decision.maker = maker;
    fill_window(
        n,
        decision.low,
        seats,
        bytes,
        behind + 1,
        &mut decision.window,
    )
}

/// The bytes of a decision.
pub fn decision_size(decision: &Decision) -> usize
    ensures exact { result ≡ decision_size decision.now }
    ensures most { result ≤ 1210 }
{
    56 + 30 * decision.seats.len() + 22 * decision.window.len()
}

fn put_support(out: &mut [u8; 4096], place: usize, support: Option<Support>) -> usize
    requires { place + 16 ≤ 4096 }
    ensures end { result ≡ place + 16 }
    ensures text { Writes out.old place (guarded 2 support_bytes support) out.new result }
{
    match support {
        None => put_zeros(out, place, 2),
        Some(Support { ack, at }) => put_two(out, place, ack, at),
    }
}

fn put_seat(out: &mut [u8; 4096], place: usize, seat: &Seat) -> usize
    requires { place + 30 ≤ 4096 }
    ensures end { result ≡ place + 30 }
    ensures text { Writes out.old place (seat_bytes seat.now) out.new result }
{
    let place = put_byte(out, place, seat.member.who);
    let place = put_u64(out, place, seat.member.incarnation);
    let place = put_u32(out, place, seat.next);
    let place = put_byte(out, place, presence(&seat.support));
    put_support(out, place, seat.support)
}

pub fn put_decision(out: &mut [u8; 4096], place: usize, decision: &Decision) -> usize
    requires seats { length decision.now.seats.items ≤ 15 }
    requires window { length decision.now.window.items ≤ 32 }
    requires place { place ≤ 2048 }
    ensures { Writes out.old place (decision_bytes decision.now) out.new result }
{
    let place = put_u64(out, place, decision.group);
    let place = put_u64(out, place, decision.turn);
    let place = put_u64(out, place, decision.made);
    let place = put_u64(out, place, decision.start);
    let place = put_u64(out, place, decision.low);
    let place = put_u64(out, place, decision.mark.stamp);
    let place = put_byte(out, place, decision.mark.who);
    let place = put_u32(out, place, decision.mark.seq);
    let place = put_list(out, place, decision.seats.as_slice());
    let place = put_byte(out, place, decision.maker);
    put_list(out, place, decision.window.as_slice())
}

pub fn put_decision_if(out: &mut [u8; 4096], place: usize, decision: &Option<Decision>) -> usize
    requires seats { IfSome decision.now (λ d. length d.seats.items ≤ 15) }
    requires window { IfSome decision.now (λ d. length d.window.items ≤ 32) }
    requires place { place ≤ 2048 }
    ensures { Writes out.old place (guarded 0 decision_bytes decision.now) out.new result }
{
    match decision {
        None => put_zeros(out, place, 0),
        Some(decision) => put_decision(out, place, decision),
    }
}
