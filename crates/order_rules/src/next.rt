//! The entry that comes next at the end of the list.

ghost use Rattle.std.specs.Prelude.{◌≡◌, ◌<◌, length};
ghost use Rattle.tw_types.specs.Appending.{added_entry};
ghost use Rattle.order_rules.specs.Next.{ripe_at, earlier, IsFirst, room_for_one, IsNext};
ghost use Rattle.update_store.specs.Stock.{IsStock};

use crate::entries::{goes_before, is_late, is_ripe};
use tw_types::{Decision, Entry, Seat, Team, UpdateId};
use update_store::Store;

/// A window has so many entries at most.
const WINDOW_ROOM: usize = 32;

/// So many entries may stand between what was passed and the end of the list.
const LOG_ROOM: u64 = 64;

/// No position is above this.
const LAST_POSITION: u64 = (1 << 60) - 1;

/// The entry to be added next, if one may come and has room.
pub(crate) fn next_entry(
    team: &Team,
    store: &Store,
    d: &Decision,
    passed: u64,
    t: u64,
) -> Option<Entry>
    ensures next { IsNext team.now t passed d.now store.now.waiting.pending result }
    ensures facts { 0 < length d.now.seats.items → IsStock store.now }
{
    let entry = first_entry(team, store, d, t)?;
    if !has_room(d, passed) {
        return None;
    }
    Some(Entry {
        late: is_late(&d.mark, &entry),
        ..entry
    })
}

/// Whether there is room for one entry more: in the window, in the list behind what was passed, and in all positions.
fn has_room(d: &Decision, passed: u64) -> bool
    ensures { result ≡ room_for_one passed d.now }
{
    let end = d.low.saturating_add(d.window.len() as u64);
    d.window.len() < WINDOW_ROOM && end < passed.saturating_add(LOG_ROOM) && end < LAST_POSITION
}

/// Of the updates that are next at their seats, pending and ripe, the one that goes before the others.
fn first_entry(team: &Team, store: &Store, d: &Decision, t: u64) -> Option<Entry>
    ensures first { IsFirst team.now t d.now store.now.waiting.pending result }
    ensures facts { 0 < length d.now.seats.items → IsStock store.now }
{
    let mut first = None;
    let seats: &[Seat] = &d.seats;
    for seat in seats {
        first = earlier(first, ripe_at(team, store, seat, t));
    }
    first
}

/// The update that is next at a seat, if it is pending and ripe.
fn ripe_at(team: &Team, store: &Store, seat: &Seat, t: u64) -> Option<Entry>
    ensures exact { result ≡ ripe_at team.now t store.now.waiting.pending seat.now }
    ensures facts { IsStock store.now }
{
    let id = UpdateId {
        who: seat.member.who,
        incarnation: seat.member.incarnation,
        seq: seat.next,
    };
    let entry = store.pending(&id)?.entry;
    if is_ripe(team, t, &entry) {
        Some(entry)
    } else {
        None
    }
}

/// The one of two that goes before the other.
fn earlier(first: Option<Entry>, other: Option<Entry>) -> Option<Entry>
    ensures { result ≡ earlier first other }
{
    match (first, other) {
        (first, None) => first,
        (None, other) => other,
        (Some(first), Some(other)) => {
            if goes_before(&other, &first) {
                Some(other)
            } else {
                Some(first)
            }
        }
    }
}
