ghost use Rattle.std.specs.Prelude.{◌≡◌, ◌≤◌, length};
ghost use Rattle.std.specs.Option.{option_copied};
ghost use Rattle.tw_types.specs.Decisions.{or_none};
ghost use Rattle.tw_types.specs.Updates.{seat_of_sender};
ghost use Rattle.tw_types.specs.Waiting.{put_at_seat, put_by_seat};
ghost use Rattle.update_store.specs.Put.{putting_of};

use crate::kept::has_update;
use crate::pending::{PENDING_ROOM, seat_of_sender};
use tw_types::{Decision, Kept};

/// What became of an update that came. The first of these that is so is told.
#[derive(Clone, Copy, Debug, PartialEq, Eq)]
pub enum Put {
    /// The held decision wanted it: its payload is kept with that decision.
    Filled,
    /// It is pending now.
    Stored,
    /// It was ordered already, since its number is below the next one of its sender's seat, or it is pending.
    Known,
    /// Its sender has no seat.
    Stranger,
    /// Its number is the next one of its sender's seat and 8, or above.
    OutOfRange,
}

/// What becomes of an update that is no hole, where the process took or follows `view`.
pub(crate) fn put_by_seat(view: Option<&Decision>, pending: &[Kept], kept: &Kept) -> Put
    ensures answer { putting_of result ≡ put_by_seat (seat_of_sender kept.now.entry.id (or_none (option_copied view.entry))) pending.now kept.now }
    ensures few { length (or_none (option_copied view.entry)).seats.items ≤ 15 }
{
    let Some(d) = view else {
        return Put::Stranger;
    };
    match seat_of_sender(&kept.entry.id, d) {
        None => Put::Stranger,
        Some(seat) => put_at_seat(seat.next, pending, kept),
    }
}

/// The same where its sender's seat awaits the number `next`.
fn put_at_seat(next: u32, pending: &[Kept], kept: &Kept) -> Put
    ensures { putting_of result ≡ put_at_seat next pending.now kept.now }
{
    let id = &kept.entry.id;
    if id.seq < next || has_update(id, pending) {
        Put::Known
    } else if u64::from(next) + PENDING_ROOM <= u64::from(id.seq) {
        Put::OutOfRange
    } else {
        Put::Stored
    }
}
