//! The ring of a decision's seats, and when its maker is overdue. It reads decisions and changes none.

ghost use Rattle.std.specs.Prelude.{◌≡◌, ◌≤◌, nat_lt, length, option_copied, find};
ghost use Rattle.tw_types.specs.Team.{IsSound};
ghost use Rattle.tw_types.specs.Slots.{seat_after, after, is_suspect, is_stuck};
ghost use Rattle.tw_types.specs.Rings.{after_but};

use tw_types::{Decision, Seat, Team};

/// The seat after process `who` in the ring of a decision's seats: the first one above it, or the first of all where none is
/// above. The process needs no seat. None exactly where the decision has no seat.
pub fn seat_after(d: &Decision, who: u8) -> Option<Seat>
    ensures { result ≡ seat_after who d.now.seats.items }
{
    first_above(&d.seats, who).or(d.seats.first().copied())
}

fn first_above(seats: &[Seat], who: u8) -> Option<Seat>
    ensures { result ≡ find (λ seat. nat_lt who seat.member.who) seats.now }
{
    seats.iter().copied().find(|seat| who < seat.member.who)
}

/// The process that has the seat after process `who` in the ring of a decision's seats.
pub fn after(d: &Decision, who: u8) -> u8
    requires { 1 ≤ length d.now.seats.items }
    ensures { result ≡ after d.now who }
{
    seat_after(d, who).map_or(0, |seat| seat.member.who)
}

/// The process that has the seat after process `who` in the ring of a decision's seats, where process `skip` is left out. Where
/// `skip` comes next it is the one after that, which may be `who` itself.
pub fn after_but(d: &Decision, who: u8, skip: u8) -> u8
    requires { 1 ≤ length d.now.seats.items }
    ensures { result ≡ after_but d.now who skip }
{
    let next = after(d, who);
    if next == skip { after(d, skip) } else { next }
}

/// Whether the next decision is overdue at team time `t`, in microseconds: there is a last one, and it was made more than
/// `team.ring` ago.
pub fn suspect(team: &Team, last: Option<&Decision>, t: u64) -> bool
    ensures { result ≡ is_suspect team.now (option_copied last.entry) t }
{
    match last {
        None => false,
        Some(last) => last.made.saturating_add(team.ring) < t,
    }
}

/// Whether a process has waited for a decision too long at team time `t`, in microseconds: it has no last one, or that one
/// was made more than twice `team.ring` ago.
pub fn stuck(team: &Team, last: Option<&Decision>, t: u64) -> bool
    requires { IsSound team.now }
    ensures { result ≡ is_stuck team.now (option_copied last.entry) t }
{
    match last {
        None => true,
        Some(last) => last.made.saturating_add(2 * team.ring) < t,
    }
}
