//! The group that a ballot makes, or why it makes none.

ghost use Rattle.std.specs.Prelude.{◌≡◌, ◌-◌, ◌<◌, ◌≤◌, ◌^◌, length, None, IfSome, count_by, drop, option_copied};
ghost use Rattle.std.specs.List.{list_any, AllByRecursion};
ghost use Rattle.tw_types.specs.declared.message.Report.{Report};
ghost use Rattle.tw_types.specs.Team.{IsSound};
ghost use Rattle.tw_types.specs.Ranges.{DecisionFits};
ghost use Rattle.tw_types.specs.Beliefs.{Log, log_length};
ghost use Rattle.tw_types.specs.Decisions.{or_none, is_same_member};
ghost use Rattle.tw_types.specs.Logs.{fit_tests};
ghost use Rattle.tw_types.specs.Refusals.{first_refusal};
ghost use Rattle.tw_types.specs.Reports.{is_by_informed};
ghost use Rattle.tw_types.specs.BallotFits.{IsBallot};
ghost use Rattle.tw_types.specs.Groups.{decision_from, group_made};
ghost use Rattle.oal.specs.StandsFor.{StandsFor};
ghost use Rattle.group_maker.specs.Outcome.{outcome, IfGroup};

use crate::list::{entries_from, first_missing, is_behind, length};
use crate::members::{consistent, least_length, seated, seats};
use crate::start::start_of;
use arrayvec::ArrayVec;
use oal::Oal;
use tw_types::{Ballot, Decision, Entry, Kind, Member, Payloads, Report, Team, UpdateId, maj};

/// What comes of a complete ballot.
#[derive(Debug, PartialEq, Eq, Drop)]
pub enum Made {
    /// The first decision of a group.
    Group(Decision),
    /// The reports of informed processes are no majority.
    TooFew,
    /// The owner's report doesn't go with the best decision, that one's list is shorter than the owner's, or the reports that
    /// go with it are no majority.
    NotConsistent,
    /// The list would end more than 64 positions ahead of what the owner passed.
    Behind,
    /// The payload of this update is missing, which the owner's list needs.
    Missing(UpdateId),
    /// The group would start at 2^61 or later.
    Spent,
}

/// The group that a complete ballot makes, by its owner `me` at its reading `t`, in microseconds of team time, or why it makes
/// none: the first reason that holds. The owner has the list of updates `log`, and the payloads `p`.
///
/// `TooFew` comes where fewer than a majority of the team reported as informed; `NotConsistent` where no consistent report is
/// of this member, or the best decision's list ends before the owner's, or fewer than a majority are consistent; `Behind`
/// where the best decision's list ends more than 64 positions ahead of what the owner passed; `Missing` where an entry of it
/// behind the end of the owner's has no payload, with the first one's id; `Spent` where the group would start at 2^61 or
/// later.
///
/// A group that is made goes on the owner's list, if the owner is a process of the team and no report of it tells a greater
/// length than that list has.
pub fn make_group<P: Payloads>(
    team: &Team,
    b: &Ballot,
    log: &Oal,
    p: &P,
    me: Member,
    t: u64,
) -> Made
    requires sound { IsSound team.now }
    requires best { IfSome b.now.best (λ d. d.low < 2 ^ 61) }
    ensures exact { (l : Log) → StandsFor log.now l → outcome result ≡ group_made team.now b.now l (P.payloads p.now) me t }
    ensures fits { IsBallot team.now.n b.now → t < 2 ^ 60 → IfGroup result (DecisionFits team.now.n) }
    ensures fits_log { (l : Log) → StandsFor log.now l → me.who < team.now.n →
        AllByRecursion (λ (r : Report). r.member.who ≡ me.who → r.length ≤ log_length l) b.now.reports.items →
        IfGroup result (λ d. first_refusal (fit_tests l (P.payloads p.now) d) ≡ None) }
{
    let majority = usize::from(maj(team.n));
    if informed_count(&b.reports) < majority {
        return Made::TooFew;
    }
    let best = or_none(b.best.as_ref());
    let reports = consistent(b);
    if !has_report_of(me, &reports) || length(&best) < log.length() || reports.len() < majority {
        return Made::NotConsistent;
    }
    if is_behind(log, &best) {
        return Made::Behind;
    }
    if let Some(id) = first_missing(entries_from(log.length(), &best), p) {
        return Made::Missing(id);
    }
    let start = start_of(team, b);
    if start >= 1 << 61 {
        return Made::Spent;
    }
    let members = seated(team.n, &reports);
    Made::Group(decision_from(&best, &members, b.number, start as u64, me, t))
}

/// The first decision of a group of these members, which goes on from the best decision.
fn decision_from(
    best: &Decision,
    members: &[Report],
    number: u64,
    start: u64,
    me: Member,
    t: u64,
) -> Decision
    requires low { best.now.low < 2 ^ 61 }
    requires members { length members.now ≤ 15 }
    ensures { result ≡ decision_from best.now members.now number start me t }
{
    let low = least_length(members);
    Decision {
        group: number,
        turn: 0,
        made: t,
        start,
        low,
        mark: best.mark,
        seats: seats(best, me, t, members),
        maker: me.who,
        window: window_from(best, low),
    }
}

/// What stands for a decision that may be missing.
fn or_none(best: Option<&Decision>) -> Decision
    ensures { result ≡ or_none (option_copied best.entry) }
{
    best.map_or_else(Decision::default, Decision::copy)
}

/// The decision's window from this position on.
fn window_from(best: &Decision, low: u64) -> ArrayVec<Entry, 32>
    ensures { result.items ≡ drop (low - best.now.low) best.now.window.items }
{
    let skipped = low.saturating_sub(best.low) as usize;
    let mut window = ArrayVec::new();
    if skipped < best.window.len() {
        let _ = window.try_extend_from_slice(&best.window[skipped..]);
    }
    window
}

/// How many reports are of informed processes.
fn informed_count(reports: &[Report]) -> usize
    ensures { result ≡ count_by is_by_informed reports.now }
{
    reports
        .iter()
        .filter(|report| is_by_informed(report))
        .count()
}

fn is_by_informed(report: &Report) -> bool
    ensures { result ≡ is_by_informed report.now }
{
    report.kind == Kind::Informed
}

/// Whether a report is of this member.
fn has_report_of(me: Member, reports: &[Report]) -> bool
    ensures { result ≡ list_any (λ (r : Report). is_same_member r.member me) reports.now }
{
    reports.iter().any(|report| report.member == me)
}
