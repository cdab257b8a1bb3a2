//! How a ring begins, and when it has come round. It changes no ballot.

ghost use Rattle.std.specs.Prelude.{◌≡◌, ◌+◌, ◌<◌, ◌^◌, ◌==◌, ◌||◌, nat_le, Some, None, IfSome, if◌then◌else◌, option_copied};
ghost use Rattle.std.specs.List.{list_all};
ghost use Rattle.tw_types.specs.Team.{IsSound};
ghost use Rattle.tw_types.specs.Ranges.{ReportFits, IsTold};
ghost use Rattle.tw_types.specs.Slots.{slot_of};
ghost use Rattle.tw_types.specs.Ballots.{has_report_of};
ghost use Rattle.tw_types.specs.BallotFits.{IsBallot};
ghost use Rattle.tw_types.specs.Rings.{silent, begins_ring, ring_number, ring_begun, first_round, RoundFits, is_ring_complete};

use group_book::Ballot;
use tw_types::{Decision, Kind, Report, Team, maj};
use wheel::{after, next_owned, slot_of, suspect};

/// The ballot that a process begins at team time `t`, in microseconds, where the next decision after `last`, its last one, is overdue.
/// `me` is what it reports at `t`, `promised` the number that it promised last. `quarantined` says whether it is in quarantine, and
/// `busy` whether it has a ballot.
///
/// None exactly where it begins none. It begins one where it is informed, not in quarantine and has no ballot; the decision was made
/// more than `team.ring` ago, its group is what was promised, and it has a seat more than a majority at least; the process has the seat
/// after the silent one, which has the seat after the maker; and the least number of its own above the present slot's and above what
/// was promised may be promised. The ballot is of that number, and leaves the silent one out.
pub fn begin_ring(
    team: &Team,
    me: &Report,
    last: &Decision,
    promised: u64,
    quarantined: bool,
    busy: bool,
    t: u64,
) -> Option<Ballot>
    requires sound { IsSound team.now }
    requires reading { t < 2 ^ 60 }
    ensures exact { result ≡ (if begins_ring team.now me.now last.now promised quarantined busy t
        then Some (ring_begun team.now me.now last.now promised t)
        else None) }
    ensures fits { ReportFits team.now.n me.now → IsTold team.now.n me.now (Some last.now) →
        IfSome result (λ b. IsBallot team.now.n b × RoundFits team.now.n (first_round team.now me.now last.now promised t)) }
{
    if me.kind != Kind::Informed || quarantined || busy || !suspect(team, Some(last), t) {
        return None;
    }
    if last.group != promised || last.seats.len() <= usize::from(maj(team.n)) {
        return None;
    }
    let skip = after(last, last.maker);
    if after(last, skip) != me.member.who {
        return None;
    }
    let number = ring_number(team, me.member.who, promised, t)?;
    let mut ballot = group_book::begin(number, *me, Some(last.copy()));
    ballot.ring = Some(skip);
    Some(ballot)
}

/// The least number of process `who` above the present slot's and above what was promised. None where it is too far from the slot to
/// be promised.
fn ring_number(team: &Team, who: u8, promised: u64, t: u64) -> Option<u64>
    requires sound { IsSound team.now }
    requires reading { t < 2 ^ 60 }
    ensures { result ≡ (if nat_le (ring_number team.now who promised t) (slot_of team.now t + team.now.n + 1)
        then Some (ring_number team.now who promised t)
        else None) }
{
    let slot = slot_of(team, t);
    let highest = slot + u64::from(team.n) + 1;
    if promised >= highest {
        return None;
    }
    let number = next_owned(team.n, slot.max(promised) + 1, who);
    if number <= highest {
        Some(number)
    } else {
        None
    }
}

/// Whether a ring's ballot has come round: each seat of the last decision, but that of the process left out, has a report of its
/// process. A ballot of a slot never has, nor any one without a last decision.
pub fn ring_complete(b: &Ballot, last: Option<&Decision>) -> bool
    ensures { result ≡ is_ring_complete b.now (option_copied last.entry) }
{
    match (b.ring, last) {
        (Some(skip), Some(last)) => all_reported(b, skip, last),
        _ => false,
    }
}

/// Whether each seat of a decision, but that of this process, has a report of its process.
fn all_reported(b: &Ballot, skip: u8, last: &Decision) -> bool
    ensures { result ≡ list_all (λ seat. (seat.member.who == skip) || has_report_of seat.member.who b.now) last.now.seats.items }
{
    last.seats.iter().all(|seat| seat.member.who == skip || has_report_of(seat.member.who, b))
}

/// Whether there is a report of this process.
fn has_report_of(who: u8, b: &Ballot) -> bool
    ensures { result ≡ has_report_of who b.now }
{
    b.reports.iter().any(|report| report.member.who == who)
}
