//! Pending updates: the order in which they wait, and which of them a decision keeps.

ghost use Rattle.std.specs.Prelude.{◌≡◌, ◌<◌, ◌≤◌, length, map, count_by, option_copied};
ghost use Rattle.tw_types.specs.declared.message.Kept.{Kept as KeptSeen};
ghost use Rattle.tw_types.specs.Updates.{waits_before, WaitInOrder, with_pending, is_awaited, seat_of_sender, stays_pending, settled, may_be_early, next_weak, marked};

use tw_types::{Atom, Decision, Kept, Listed, Member, Order, Seat, UpdateId};

/// So many updates of a member may wait.
pub(crate) const PENDING_ROOM: u64 = 8;

/// Updates in the order in which they wait: at most 8 of each seat.
pub(crate) type Pending = Listed<Kept, 120>;

/// Whether the first of two updates waits before the second.
fn waits_before(a: &Kept, b: &Kept) -> bool
    ensures { result ≡ waits_before a.now b.now }
{
    let (a, b) = (&a.entry.id, &b.entry.id);
    a.who < b.who || a.who == b.who && a.seq < b.seq
}

/// How many of these updates wait before this one.
fn place_of(kept: &Kept, pending: &[Kept]) -> usize
    ensures { result ≡ count_by (λ (other : KeptSeen). waits_before other kept.now) pending.now }
{
    pending
        .iter()
        .filter(|other| waits_before(other, kept))
        .count()
}

/// Puts an update at its place.
pub(crate) fn insert(pending: &mut Pending, kept: Kept)
    requires room { length pending.old < 120 }
    requires order { WaitInOrder pending.old }
    ensures { pending.new ≡ with_pending kept pending.old }
{
    let place = place_of(&kept, pending.as_slice());
    pending.insert(place, kept);
}

/// The seat of the member that sent the update.
pub(crate) fn seat_of_sender(id: &UpdateId, d: &Decision) -> Option<Seat>
    ensures exact { result ≡ seat_of_sender id.now d.now }
    ensures few { length d.now.seats.items ≤ 15 }
{
    let sender = Member {
        who: id.who,
        incarnation: id.incarnation,
    };
    d.seats.iter().copied().find(|seat| seat.member == sender)
}

/// Whether the number is one of those that may wait, where `next` is the next one.
fn is_awaited(next: u32, seq: u32) -> bool
    ensures { result ≡ is_awaited next seq }
{
    next <= seq && u64::from(seq) < u64::from(next) + PENDING_ROOM
}

fn stays_pending(d: &Decision, kept: &Kept) -> bool
    ensures { result ≡ stays_pending d.now kept.now }
{
    let id = &kept.entry.id;
    seat_of_sender(id, d).is_some_and(|seat| is_awaited(seat.next, id.seq))
}

/// Drops what the decision doesn't keep pending.
pub(crate) fn settle(pending: &mut Pending, d: &Decision)
    ensures { pending.new ≡ settled d.now pending.old }
{
    let mut place = pending.as_slice().len();
    while place > 0 {
        place -= 1;
        if !stays_pending(d, &pending.as_slice()[place]) {
            pending.remove(place);
        }
    }
}

/// Marks the update with this id as delivered early.
pub(crate) fn mark_early(pending: &mut Pending, id: &UpdateId)
    ensures { pending.new ≡ map (marked id.now) pending.old }
{
    for place in 0..pending.as_slice().len() {
        let kept = &pending.as_slice()[place];
        if kept.entry.id == *id {
            let marked = Kept {
                early: true,
                ..kept.copy()
            };
            pending.set(place, marked);
        }
    }
}

fn may_be_early(kept: &Kept) -> bool
    ensures { result ≡ may_be_early kept.now }
{
    kept.entry.atom == Atom::Weak && kept.entry.order == Order::Unordered && !kept.early
}

/// The first update that may be delivered before it has a place, and wasn't yet.
pub(crate) fn next_weak(pending: &[Kept]) -> Option<&Kept>
    ensures { option_copied result ≡ next_weak pending.now }
{
    pending.iter().find(|kept| may_be_early(kept))
}
