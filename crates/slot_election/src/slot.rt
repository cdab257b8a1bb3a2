//! The election of a slot's owner: when it begins, who answers, when it is complete. It changes no ballot.

ghost use Rattle.tw_types.specs.Decisions.{or_none};
ghost use Rattle.std.specs.Prelude.{◌≡◌, ◌+◌, ◌*◌, ◌/◌, ◌<◌, ◌^◌, Some, None, MatchResult, IfSome, if◌then◌else◌, option_copied};
ghost use Rattle.tw_types.specs.Team.{IsSound};
ghost use Rattle.tw_types.specs.Ranges.{ReportFits, IsTold};
ghost use Rattle.tw_types.specs.Refusals.{first_refusal};
ghost use Rattle.tw_types.specs.Ballots.{begun, is_complete};
ghost use Rattle.tw_types.specs.BallotFits.{IsBallot};
ghost use Rattle.tw_types.specs.Elections.{begins_slot, why_begun, own_promise, election_tests, is_willing, is_willing_as};
ghost use Rattle.wheel.specs.Faults.{election_reason};

use group_book::Ballot;
use tw_types::{Decision, Kind, Report, Team, Why};
use wheel::{BallotFault, ElectFault, may_promise, owner, slot_of, stuck};

/// The ballot that a process begins at team time `t`, in microseconds, and why it begins it. `me` is what the process reports
/// at `t`, `last` its last decision, `promised` the number that it promised last. `quarantined` says whether it is in
/// quarantine, and `wish` whether it may believe its group and has a wish to grant.
///
/// None exactly where it begins none. It begins one where it is informed, not in quarantine, owns the present slot, promised a
/// lesser number than the slot's, and is stuck or has a wish. Being stuck goes before a wish.
pub fn begin_slot(
    team: &Team,
    me: &Report,
    last: Option<&Decision>,
    promised: u64,
    quarantined: bool,
    wish: bool,
    t: u64,
) -> Option<(Ballot, Why)>
    requires sound { IsSound team.now }
    ensures exact { result ≡
        (if begins_slot team.now me.now (option_copied last.entry) promised quarantined wish t
        then Some (begun (own_promise team.now me.now (option_copied last.entry) t), why_begun team.now (option_copied last.entry) t)
        else None) }
    ensures fits { t < 2 ^ 60 → ReportFits team.now.n me.now → IsTold team.now.n me.now (option_copied last.entry) →
        IfSome result (λ b. IsBallot team.now.n b.0) }
{
    let number = slot_of(team, t);
    let is_stuck = stuck(team, last, t);
    if me.kind != Kind::Informed || quarantined || owner(team.n, number) != me.member.who {
        return None;
    }
    if number <= promised || !is_stuck && !wish {
        return None;
    }
    let why = if is_stuck {
        Why::Stuck
    } else {
        Why::Join(group_of(last))
    };
    Some((
        group_book::begin(number, *me, last.map(Decision::copy)),
        why,
    ))
}

/// Whether a process promises a number in answer to an election that process `from` holds, at team time `t`, in microseconds,
/// and why it doesn't: the first reason that holds. `me` is what the process reports at `t`, None where it is neither informed
/// nor ready, `last` its last decision, `promised` the number that it promised last. `quarantined` says whether it is in
/// quarantine.
///
/// `Quarantine` comes where it is in quarantine, `OutOfWindow` where `from` doesn't own the number or it is too far from the
/// present slot, `Promised` where it isn't above `promised`, and `Unwilling` where the process sees no reason. A ready process
/// sees each reason. An informed one sees that of a stuck process where it is stuck itself, and that of one that wants to join
/// where the group is its own.
pub fn answer_slot(
    team: &Team,
    me: Option<&Report>,
    last: Option<&Decision>,
    promised: u64,
    quarantined: bool,
    from: u8,
    number: u64,
    why: Why,
    t: u64,
) -> Result<(), ElectFault>
    requires sound { IsSound team.now }
    requires number { number < 2 ^ 61 }
    requires reading { t < 2 ^ 60 }
    ensures exact { MatchResult result
        (λ _. first_refusal (election_tests team.now (option_copied me.entry) (option_copied last.entry) promised quarantined from number why t) ≡ None)
        (λ fault. first_refusal (election_tests team.now (option_copied me.entry) (option_copied last.entry) promised quarantined from number why t) ≡ Some (election_reason fault)) }
{
    if quarantined {
        return Err(ElectFault::Quarantine);
    }
    if owner(team.n, number) != from {
        return Err(ElectFault::OutOfWindow);
    }
    match may_promise(team, promised, number, t) {
        Err(BallotFault::OutOfWindow) => Err(ElectFault::OutOfWindow),
        Err(BallotFault::Promised(promised)) => Err(ElectFault::Promised(promised)),
        Ok(()) if is_willing(team, me, last, why, t) => Ok(()),
        Ok(()) => Err(ElectFault::Unwilling),
    }
}

/// Whether a slot's ballot is complete at team time `t`, in microseconds: every process reported, or half of its slot is over.
/// A ballot that isn't one of a slot never is.
pub fn complete(team: &Team, b: &Ballot, t: u64) -> bool
    ensures { result ≡ is_complete team.now t b.now }
{
    b.ring.is_none()
        && (b.reports.len() >= usize::from(team.n) || u128::from(t) >= half_of(team, b.number))
}

/// When half of a slot is over, rounded down. It is wider than a time, for the number may be far ahead.
fn half_of(team: &Team, number: u64) -> u128
    ensures { result ≡ number * team.now.slot + team.now.slot / 2 }
{
    u128::from(number) * u128::from(team.slot) + u128::from(team.slot / 2)
}

/// Whether a process sees the reason for an election.
fn is_willing(team: &Team, me: Option<&Report>, last: Option<&Decision>, why: Why, t: u64) -> bool
    requires { IsSound team.now }
    ensures { result ≡ is_willing team.now (option_copied me.entry) (option_copied last.entry) why t }
{
    match me {
        None => false,
        Some(me) => is_willing_as(team, me.kind, last, why, t),
    }
}

fn is_willing_as(team: &Team, kind: Kind, last: Option<&Decision>, why: Why, t: u64) -> bool
    requires { IsSound team.now }
    ensures { result ≡ is_willing_as team.now kind (option_copied last.entry) why t }
{
    match (kind, why) {
        (Kind::Ready, _) => true,
        (Kind::Informed, Why::Stuck) => stuck(team, last, t),
        (Kind::Informed, Why::Join(group)) => group_of(last) == group,
    }
}

/// The group of a decision, 0 for none.
fn group_of(last: Option<&Decision>) -> u64
    ensures { result ≡ (or_none (option_copied last.entry)).group }
{
    last.map_or(0, |last| last.group)
}
