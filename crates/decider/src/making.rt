//! Whose turn it is, and the next decision. It makes values; a process keeps and sends them.

ghost use Rattle.std.specs.Prelude.{◌≡◌, ℕ, ◌+◌, ◌<◌, ◌≤◌, ◌^◌, true, Some, length, map, min, drop, option_copied, is_some};
ghost use Rattle.std.specs.List.{list_all, reduce};
ghost use Rattle.std.specs.Option.{option_map};
ghost use Rattle.tw_num.specs.Rate.{lesser};
ghost use Rattle.tw_types.specs.declared.team.Team.{Team};
ghost use Rattle.tw_types.specs.declared.message.Member.{Member};
ghost use Rattle.tw_types.specs.Ranges.{DecisionFits};
ghost use Rattle.tw_types.specs.Decisions.{decision_length};
ghost use Rattle.tw_types.specs.Turns.{is_next, is_turn, next_draft, supported, acks, raised_low, finished, DraftFits};

use arrayvec::ArrayVec;
use tw_types::{Decision, Entry, Member, Seat, Support, Team};
use wheel::seat_after;

/// No decision follows one of this turn.
const LAST_TURN: u64 = (1 << 60) - 1;

/// Whether it is the turn of member `me` to make the next decision at team time `t`, in microseconds: it has the seat after
/// the maker of the last one, that one was made `team.decide` ago or earlier, and its group is the one that was promised.
/// False without a last decision.
pub fn due(team: &Team, me: Member, last: Option<&Decision>, promised: u64, t: u64) -> bool
    requires { t < 2 ^ 60 }
    ensures { result ≡ is_turn team.now me (option_copied last.entry) promised t }
{
    match last {
        None => false,
        Some(last) => {
            last.group == promised
                && is_next(me, last)
                && last.made.saturating_add(team.decide) <= t
                && last.turn < LAST_TURN
        }
    }
}

fn is_next(me: Member, last: &Decision) -> bool
    ensures { result ≡ is_next me last.now }
{
    match seat_after(last, last.maker) {
        None => false,
        Some(seat) => seat.member == me,
    }
}

/// The decision after `d`, made at team time `t`, in microseconds, by process `me`, as far as its turn, its moment and its
/// maker go: all else stays, and `finish` makes a decision of it.
pub fn next_draft(d: &Decision, t: u64, me: u8) -> Decision
    requires { d.now.turn < 2 ^ 61 }
    ensures exact { result ≡ next_draft d.now t me }
    ensures fits { (n promised : ℕ) (team : Team) (member : Member) → DecisionFits n d.now → member.who ≡ me →
        is_turn team member (Some d.now) promised t ≡ true → t < 2 ^ 60 → DraftFits n result }
{
    let mut draft = d.copy();
    draft.turn += 1;
    draft.made = t;
    draft.maker = me;
    draft
}

/// The decision that a draft becomes: its maker's seat says that the maker has the whole list by `made`; and where every
/// seat has a support, the window begins at the least position that all members have, if that is above `low`.
pub fn finish(mut draft: Decision) -> Decision
    requires { draft.low < 2 ^ 61 }
    ensures exact { result ≡ finished draft }
    ensures fits { (n : ℕ) → DraftFits n draft → DecisionFits n result }
{
    let support = Support {
        ack: draft.low + draft.window.len() as u64,
        at: draft.made,
    };
    draft.seats = with_support(&draft.seats, draft.maker, support);
    let low = raised_low(draft.low, &draft.seats);
    draft.window = from_entry(&draft.window, low - draft.low);
    draft.low = low;
    draft
}

/// The seats, of which that of process `who` has the support.
fn with_support(seats: &[Seat], who: u8, support: Support) -> ArrayVec<Seat, 15>
    requires { length seats.now ≤ 15 }
    ensures { result.items ≡ map (supported who support) seats.now }
{
    let mut all = ArrayVec::new();
    for seat in seats {
        all.push(supported(*seat, who, support));
    }
    all
}

fn supported(seat: Seat, who: u8, support: Support) -> Seat
    ensures { result ≡ supported who support seat }
{
    if seat.member.who == who {
        Seat {
            support: Some(support),
            ..seat
        }
    } else {
        seat
    }
}

fn raised_low(low: u64, seats: &[Seat]) -> u64
    ensures exact { result ≡ raised_low low seats.now }
    ensures not_below { low ≤ result }
{
    if all_support(seats) {
        low.max(least_ack(seats).unwrap_or(0))
    } else {
        low
    }
}

fn all_support(seats: &[Seat]) -> bool
    ensures { result ≡ list_all (λ s. is_some s.support) seats.now }
{
    seats.iter().all(|seat| seat.support.is_some())
}

/// The least position that a seat's support tells.
#[tactic(auto, using(crate::proofs::Least::one_more))]
fn least_ack(seats: &[Seat]) -> Option<u64>
    ensures { result ≡ reduce min (acks seats.now) }
{
    let mut least = None;
    for seat in seats {
        least = lesser(least, seat.support);
    }
    least
}

/// The lesser of those that are there.
fn lesser(least: Option<u64>, support: Option<Support>) -> Option<u64>
    ensures { result ≡ lesser least (option_map (λ support. support.ack) support) }
{
    match (least, support) {
        (Some(least), Some(support)) => Some(least.min(support.ack)),
        (least, None) => least,
        (None, Some(support)) => Some(support.ack),
    }
}

/// The window's entries but for the first `count`.
fn from_entry(window: &ArrayVec<Entry, 32>, count: u64) -> ArrayVec<Entry, 32>
    ensures { result.items ≡ drop count window.now.items }
{
    let mut rest = ArrayVec::new();
    if count < window.len() as u64 {
        let _ = rest.try_extend_from_slice(&window[count as usize..]);
    }
    rest
}
