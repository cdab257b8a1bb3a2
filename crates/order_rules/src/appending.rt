//! Entries added to a decision.

ghost use Rattle.std.specs.Prelude.{◌≡◌, ◌<◌, ◌≤◌, ◌∷◌, [], length, map, ℕ, List, true};
ghost use Rattle.std.specs.List.{AllByRecursion};
ghost use Rattle.tw_types.specs.declared.message.Entry.{Entry as EntrySeen};
ghost use Rattle.tw_types.specs.declared.message.Kept.{Kept};
ghost use Rattle.tw_types.specs.declared.message.Seat.{Seat as SeatSeen};
ghost use Rattle.tw_types.specs.Ranges.{Ascends, SentFits};
ghost use Rattle.tw_types.specs.Turns.{DraftFits};
ghost use Rattle.tw_types.specs.Decisions.{is_seat_of};
ghost use Rattle.tw_types.specs.Updates.{sender};
ghost use Rattle.tw_types.specs.Appending.{IsAppended, appended_list, raised, with_appended};

use crate::entries::{mark_of, moves_mark};
use crate::next::next_entry;
use arrayvec::ArrayVec;
use tw_types::{Decision, Entry, Seat, Team};
use update_store::Store;

/// Adds to the list of `d` what may be added at team time `t`, in microseconds, of the updates that are pending in `store`. The
/// maker of `d` passed the first `passed` entries of the list.
///
/// The window gets the entries, in the order in which they come; the seats' next numbers rise by them; and the mark becomes that
/// of the last one that is timed and not late. Where no update may come, or none has room, `d` stays as it is.
pub fn append(team: &Team, store: &Store, d: &mut Decision, passed: u64, t: u64)
    requires { Ascends d.old.seats.items }
    ensures exact { (entries : List EntrySeen) × IsAppended team.now t passed d.old store.now.waiting.pending entries × (d.new ≡ with_appended entries d.old) }
    ensures listed { d.new ≡ with_appended (appended_list team.now t passed d.old store.now.waiting.pending) d.old }
    ensures fits { (n : ℕ) → DraftFits n d.old → AllByRecursion (λ (k : Kept). SentFits n k.entry) store.now.waiting.pending → DraftFits n d.new }
{
    while let Some(entry) = next_entry(team, store, d, passed, t) {
        add(d, entry);
    }
}

/// Adds one entry. Its sender's seat has a next number below the last one that there is.
fn add(d: &mut Decision, entry: Entry)
    requires room { length d.old.window.items < 32 }
    requires next { AllByRecursion (λ (s : SeatSeen). is_seat_of (sender entry.id) s ≡ true → s.next < 4294967295) d.old.seats.items }
    ensures { d.new ≡ with_appended (entry ∷ []) d.old }
{
    if moves_mark(&entry) {
        d.mark = mark_of(&entry);
    }
    d.seats = raised(&d.seats, &entry);
    d.window.push(entry);
}

/// The seats, of which the sender's has the number behind that of the entry as its next.
fn raised(seats: &[Seat], entry: &Entry) -> ArrayVec<Seat, 15>
    requires few { length seats.now ≤ 15 }
    requires next { AllByRecursion (λ (s : SeatSeen). is_seat_of (sender entry.now.id) s ≡ true → s.next < 4294967295) seats.now }
    ensures { result.items ≡ map (raised (entry.now ∷ [])) seats.now }
{
    let mut all = ArrayVec::new();
    for seat in seats {
        all.push(raised_seat(*seat, entry));
    }
    all
}

fn raised_seat(seat: Seat, entry: &Entry) -> Seat
    requires { is_seat_of (sender entry.now.id) seat ≡ true → seat.next < 4294967295 }
    ensures { result ≡ raised (entry.now ∷ []) seat }
{
    let is_senders = seat.member.who == entry.id.who
        && seat.member.incarnation == entry.id.incarnation;
    Seat {
        next: if is_senders { seat.next + 1 } else { seat.next },
        ..seat
    }
}
