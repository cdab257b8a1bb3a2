//! Ballots: how one begins and grows. Nothing else may change one.

ghost use Rattle.std.specs.Prelude.{◌≡◌, ◌+◌, ◌≤◌, ◌<◌, Some, [], ◌∷◌, if◌then◌else◌, ℕ, not, length, filter, IfSome, IsSomeAnd};
ghost use Rattle.std.specs.List.{list_all};
ghost use Rattle.std.specs.Option.{option_copied};
ghost use Rattle.tw_types.specs.Decisions.{or_none, is_older};
ghost use Rattle.tw_types.specs.Ballots.{reports_it, least_reporter, begun, wants, joined, with_reports, has_report_of};
ghost use Rattle.tw_types.specs.Rings.{RoundFits, round_of, is_same_report, agrees, takes_round, round_joined};
ghost use Rattle.tw_types.specs.BallotFits.{IsPromise, IsBallot};

use crate::reports::{is_by_informed, is_older};
use arrayvec::ArrayVec;
use tw_types::{Ballot, Body, Decision, Report, Team};

/// A ballot of this number, which begins with the promise of its owner: its report, and its last decision if it has one.
///
/// The ballot is one of a slot.
pub fn begin(number: u64, report: Report, decision: Option<Decision>) -> Ballot
    ensures fits { (n : ℕ) → IsPromise n (record { number = number; report = report; decision = decision }) → IsBallot n result }
    ensures exact { result ≡ begun (record { number = number; report = report; decision = decision }) }
{
    let mut reports = ArrayVec::new();
    reports.push(report);
    let best_from = least_reporter(decision.as_ref(), &reports);
    Ballot {
        number,
        ring: None,
        reports,
        best: decision,
        best_from,
    }
}

/// Adds a promise to a ballot: what the process reports, and the decision that came with it. A greater decision becomes the
/// ballot's best one.
///
/// Answers whether it was added. It isn't where the ballot is of another number, or has a report of the process already; the
/// ballot then stays as it was.
pub fn add(
    team: &Team,
    ballot: &mut Ballot,
    number: u64,
    report: Report,
    decision: Option<Decision>,
) -> bool
    requires size { team.now.n ≤ 15 }
    requires ballot { IsBallot team.now.n ballot.old }
    requires who { report.member.who < team.now.n }
    ensures wanted { result ≡ wants (record { number = number; report = report; decision = decision }) (Some ballot.old) }
    ensures ballot { ballot.new ≡ (if result then joined (record { number = number; report = report; decision = decision }) ballot.old else ballot.old) }
    ensures fits { IsPromise team.now.n (record { number = number; report = report; decision = decision }) → IsBallot team.now.n ballot.new }
{
    prove!(report.member.who < team.n);
    if ballot.number != number || has_report_of(report.member.who, ballot) {
        return false;
    }
    join(ballot, &[report], decision);
    true
}

/// Adds what went round a ring, which a NoDecision tells: the reports of processes that the ballot has none of, in their order. A
/// greater decision becomes the ballot's best one.
///
/// Answers whether it was taken. It isn't where the ballot is one of a slot, or of another number, or has a report that differs
/// from one of the same process in the NoDecision; the ballot then stays as it was. Its group, turn and the process left out
/// aren't asked.
pub fn add_round(team: &Team, ballot: &mut Ballot, body: &Body) -> bool
    requires size { team.now.n ≤ 15 }
    requires ballot { IsBallot team.now.n ballot.old }
    requires packet { IsSomeAnd (round_of body.now) (RoundFits team.now.n) }
    ensures taken { IfSome (round_of body.now) (λ r. result ≡ takes_round r (Some ballot.old)) }
    ensures ballot { IfSome (round_of body.now) (λ r. ballot.new ≡ (if result then round_joined r ballot.old else ballot.old)) }
    ensures fits { IsBallot team.now.n ballot.new }
{
    let Body::NoDecision {
        number,
        reports,
        best,
        ..
    } = body
    else {
        return false;
    };
    if ballot.ring.is_none() || ballot.number != *number || !all_agree(ballot, reports) {
        return false;
    }
    let new = new_reports(ballot, reports);
    join(ballot, &new, Some(best.copy()));
    true
}

/// Adds reports and the decision that came with them.
fn join(ballot: &mut Ballot, reports: &[Report], decision: Option<Decision>)
    requires { length ballot.old.reports.items + length reports.now ≤ 15 }
    ensures { ballot.new ≡ with_reports reports.now decision ballot.old }
{
    let _ = ballot.reports.try_extend_from_slice(reports);
    if is_older(pair_of(ballot.best.as_ref()), pair_of(decision.as_ref())) {
        ballot.best = decision;
    }
    ballot.best_from = least_reporter(ballot.best.as_ref(), &ballot.reports);
}

/// The reports of processes that the ballot has no report of, in their order.
fn new_reports(ballot: &Ballot, reports: &[Report]) -> ArrayVec<Report, 15>
    requires { length reports.now ≤ 15 }
    ensures { result.items ≡ filter (λ r. not (has_report_of r.member.who ballot.now)) reports.now }
{
    let mut new = ArrayVec::new();
    for report in reports {
        if !has_report_of(report.member.who, ballot) {
            new.push(*report);
        }
    }
    new
}

/// Whether none of these reports differs from the ballot's report of its process.
fn all_agree(ballot: &Ballot, reports: &[Report]) -> bool
    ensures { result ≡ list_all (agrees ballot.now.reports.items) reports.now }
{
    reports.iter().all(|report| agrees(ballot, report))
}

/// Whether a report doesn't differ from the ballot's report of its process.
fn agrees(ballot: &Ballot, report: &Report) -> bool
    ensures { result ≡ agrees ballot.now.reports.items report.now }
{
    ballot.reports.iter().all(|other| other.member.who != report.member.who
        || is_same_report(other, report))
}

/// Whether two reports are equal.
fn is_same_report(a: &Report, b: &Report) -> bool
    ensures { result ≡ is_same_report a.now b.now }
{
    a == b
}

/// Whether there is a report of this process.
fn has_report_of(who: u8, ballot: &Ballot) -> bool
    ensures { result ≡ has_report_of who ballot.now }
{
    ballot.reports.iter().any(|report| report.member.who == who)
}

/// The least process that reports this decision as its last one, or none where it is missing. 0 where there is no such one.
fn least_reporter(decision: Option<&Decision>, reports: &[Report]) -> u8
    ensures { result ≡ least_reporter (option_copied decision.entry) reports.now }
{
    let mut least = None;
    for report in reports {
        if reports_it(decision, report) {
            let who = report.member.who;
            least = Some(least.map_or(who, |least: u8| least.min(who)));
        }
    }
    least.unwrap_or(0)
}

/// Whether an informed process reports this decision as its last one, or none where it is missing.
fn reports_it(decision: Option<&Decision>, report: &Report) -> bool
    ensures { result ≡ reports_it (option_copied decision.entry) report.now }
{
    is_by_informed(report) && (report.group, report.turn) == pair_of(decision)
}

/// The group and turn of a decision, 0 and 0 for none.
fn pair_of(decision: Option<&Decision>) -> (u64, u64)
    ensures group { result.0 ≡ (or_none (option_copied decision.entry)).group }
    ensures turn { result.1 ≡ (or_none (option_copied decision.entry)).turn }
{
    decision.map_or((0, 0), |d| (d.group, d.turn))
}
