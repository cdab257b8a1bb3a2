//! When a position of the list fulfils an atomicity.

ghost use Rattle.std.specs.Prelude.{◌≡◌, count_by};
ghost use Rattle.std.specs.List.{list_all};
ghost use Rattle.tw_types.specs.declared.message.Seat.{Seat as SeatSeen};
ghost use Rattle.tw_types.specs.Deliveries.{reaches, fulfils};

use tw_types::{Atom, Decision, Seat, Team, maj};

/// Whether the position fulfils the atomicity, as far as the decision tells: weak where the decision's list has the position;
/// strong where a majority of the team, and not of the seats alone, acknowledged it; strict where each seat did. A seat
/// acknowledged what is below its ack, and nothing before its first support.
pub fn fulfils(team: &Team, d: &Decision, position: u64, atom: Atom) -> bool
    ensures { result ≡ fulfils team.now d.now position atom }
{
    match atom {
        Atom::Weak => position < d.low || position - d.low < d.window.len() as u64,
        Atom::Strong => usize::from(maj(team.n)) <= count_reaching(position, &d.seats),
        Atom::Strict => all_reach(position, &d.seats),
    }
}

fn count_reaching(position: u64, seats: &[Seat]) -> usize
    ensures { result ≡ count_by (λ (s : SeatSeen). reaches position s.support) seats.now }
{
    seats.iter().filter(|seat| reaches(position, seat)).count()
}

fn all_reach(position: u64, seats: &[Seat]) -> bool
    ensures { result ≡ list_all (λ (s : SeatSeen). reaches position s.support) seats.now }
{
    seats.iter().all(|seat| reaches(position, seat))
}

/// Whether the seat acknowledged the position.
fn reaches(position: u64, seat: &Seat) -> bool
    ensures { result ≡ reaches position seat.now.support }
{
    seat.support.is_some_and(|support| position < support.ack)
}
