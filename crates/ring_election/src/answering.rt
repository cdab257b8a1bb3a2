//! Who joins a ring, and what it hands on. It changes no ballot.

ghost use Rattle.std.specs.Prelude.{◌≡◌, ◌<◌, ◌≤◌, ◌^◌, length, Some, None, MatchResult, IfSome, IsSomeAnd, IfOk, option_copied, if◌then◌else◌};
ghost use Rattle.tw_types.specs.Team.{IsSound};
ghost use Rattle.tw_types.specs.Ranges.{ReportFits, IsTold};
ghost use Rattle.tw_types.specs.Decisions.{is_older};
ghost use Rattle.tw_types.specs.Refusals.{first_refusal};
ghost use Rattle.tw_types.specs.Ballots.{is_reported};
ghost use Rattle.tw_types.specs.Rings.{RoundFits, round_of, round_body, has_seat_of, is_willing_in, round_tests, round_answered, handed_on, after_but};
ghost use Rattle.wheel.specs.Faults.{election_reason};

use tw_types::{Body, Decision, Kind, Report, Team};
use wheel::{BallotFault, ElectFault, after_but, may_promise, owner, suspect};

/// What a process sends on, and to whom, in answer to a ring's NoDecision of a number that another process owns, at team time `t`, in
/// microseconds; or why it promises nothing: the first reason that holds. `me` is what it reports at `t`, of either kind, `last` its
/// last decision, `promised` the number that it promised last. `quarantined` says whether it is in quarantine.
///
/// `Quarantine` comes where it is in quarantine; `OutOfWindow` where the owner of the number has no seat in the last decision, there
/// is no last decision, or the number is too far from the present slot; `Promised` where it isn't above `promised`; `Unwilling` where
/// the process isn't informed, is the one left out, has a report there already or finds no room for one, where its last decision is of
/// another group or of a later turn than the starter's, or where the next decision isn't overdue.
///
/// Else the report comes last, the last decision takes the place of a lesser best one, and what is sent goes to the process with the
/// seat after this one, the one left out passed over.
pub fn answer_ring(
    team: &Team,
    me: &Report,
    last: Option<&Decision>,
    promised: u64,
    quarantined: bool,
    body: &Body,
    t: u64,
) -> Result<(u8, Body), ElectFault>
    requires sound { IsSound team.now }
    requires packet { IsSomeAnd (round_of body.now) (λ r. r.number < 2 ^ 61) }
    requires reading { t < 2 ^ 60 }
    ensures exact { IfSome (round_of body.now) (λ r. MatchResult result
        (λ sent. (first_refusal (round_tests team.now me.now (option_copied last.entry) promised quarantined r t) ≡ None)
        × (sent ≡ handed_on me.now (option_copied last.entry) r))
        (λ fault. first_refusal (round_tests team.now me.now (option_copied last.entry) promised quarantined r t) ≡ Some (election_reason fault))) }
    ensures fits { IfSome (round_of body.now) (λ r. RoundFits team.now.n r → ReportFits team.now.n me.now →
        IsTold team.now.n me.now (option_copied last.entry) → IfSome (option_copied last.entry) (λ d. d.group < r.number) →
        IfOk result (λ sent. (sent.0 < team.now.n) × IsSomeAnd (round_of sent.1) (RoundFits team.now.n))) }
{
    let Some(last) = last else {
        return Err(without_decision(quarantined));
    };
    may_join(team, me, last, promised, quarantined, body, t)?;
    Ok((receiver(me.member.who, last, body), joined(me, last, body)))
}

/// Why a process without a last decision promises nothing.
fn without_decision(quarantined: bool) -> ElectFault
    ensures { result ≡ (if quarantined then ElectFault.Quarantine else ElectFault.OutOfWindow) }
{
    if quarantined {
        ElectFault::Quarantine
    } else {
        ElectFault::OutOfWindow
    }
}

/// Whether a process with this last decision joins a ring, and why it doesn't: the first reason that holds.
fn may_join(
    team: &Team,
    me: &Report,
    last: &Decision,
    promised: u64,
    quarantined: bool,
    body: &Body,
    t: u64,
) -> Result<(), ElectFault>
    requires sound { IsSound team.now }
    requires packet { IsSomeAnd (round_of body.now) (λ r. r.number < 2 ^ 61) }
    requires reading { t < 2 ^ 60 }
    ensures exact { IfSome (round_of body.now) (λ r. MatchResult result
        (λ _. first_refusal (round_tests team.now me.now (Some last.now) promised quarantined r t) ≡ None)
        (λ fault. first_refusal (round_tests team.now me.now (Some last.now) promised quarantined r t) ≡ Some (election_reason fault))) }
{
    let Body::NoDecision { number, .. } = body else {
        return Err(ElectFault::Unwilling);
    };
    if quarantined {
        return Err(ElectFault::Quarantine);
    }
    if !has_seat_of(owner(team.n, *number), last) {
        return Err(ElectFault::OutOfWindow);
    }
    match may_promise(team, promised, *number, t) {
        Err(BallotFault::OutOfWindow) => Err(ElectFault::OutOfWindow),
        Err(BallotFault::Promised(promised)) => Err(ElectFault::Promised(promised)),
        Ok(()) if is_willing_in(team, me, last, body, t) => Ok(()),
        Ok(()) => Err(ElectFault::Unwilling),
    }
}

/// Whether process `who` has a seat.
fn has_seat_of(who: u8, d: &Decision) -> bool
    ensures { result ≡ has_seat_of who d.now }
{
    d.seats.iter().any(|seat| seat.member.who == who)
}

/// Whether a process sees the reason for a ring, and has a place in it.
fn is_willing_in(team: &Team, me: &Report, last: &Decision, body: &Body, t: u64) -> bool
    ensures { IfSome (round_of body.now) (λ r. result ≡ is_willing_in team.now me.now (Some last.now) r t) }
{
    let Body::NoDecision {
        group,
        turn,
        skip,
        reports,
        ..
    } = body
    else {
        return false;
    };
    me.kind == Kind::Informed
        && me.member.who != *skip
        && !is_reported(me.member.who, reports)
        && !reports.is_full()
        && last.group == *group
        && last.turn <= *turn
        && suspect(team, Some(last), t)
}

/// Whether one of these reports is of process `who`.
fn is_reported(who: u8, reports: &[Report]) -> bool
    ensures { result ≡ is_reported who reports.now }
{
    reports.iter().any(|report| report.member.who == who)
}

/// To whom process `who` hands a NoDecision on.
fn receiver(who: u8, last: &Decision, body: &Body) -> u8
    requires { 1 ≤ length last.now.seats.items }
    ensures { IfSome (round_of body.now) (λ r. result ≡ after_but last.now who r.skip) }
{
    match body {
        Body::NoDecision { skip, .. } => after_but(last, who, *skip),
        _ => who,
    }
}

/// A NoDecision with one report more, and with the greater decision of both. It isn't inlined, since a function pays at entry for the
/// room of all that it may build.
#[inline(never)]
fn joined(me: &Report, last: &Decision, body: &Body) -> Body
    requires { IsSomeAnd (round_of body.now) (λ r. length r.reports < 15) }
    ensures { IfSome (round_of body.now) (λ r. result ≡ round_body (round_answered me.now (Some last.now) r)) }
{
    let mut sent = body.copy();
    if let Body::NoDecision { reports, best, .. } = &mut sent {
        reports.push(*me);
        if is_older(best, last) {
            *best = last.copy();
        }
    }
    sent
}

/// Whether the first decision is below the second.
fn is_older(a: &Decision, b: &Decision) -> bool
    ensures { result ≡ is_older a.now.group a.now.turn b.now.group b.now.turn }
{
    a.group < b.group || a.group == b.group && a.turn < b.turn
}
