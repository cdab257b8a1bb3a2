//! Reports: the best one, and which go with a decision.

ghost use Rattle.std.specs.Prelude.{◌≡◌, ◌<◌, ◌^◌, ◌↔◌, false, IfSome, IsNone, None};
ghost use Rattle.std.specs.List.{list_any};
ghost use Rattle.std.specs.Option.{option_copied};
ghost use Rattle.tw_types.specs.Decisions.{is_older, has_seat};
ghost use Rattle.tw_types.specs.Reports.{best, is_by_informed, greater_pair, is_consistent, goes_with};

use tw_types::{Decision, Kind, Member, Report};

/// The greatest group and turn that informed processes report, the group compared before the turn.
///
/// None exactly where no report is of an informed process.
pub fn best(reports: &[Report]) -> Option<(u64, u64)>
    ensures exact { result ≡ best reports.now }
    ensures none { IsNone result ↔ (list_any is_by_informed reports.now ≡ false) }
{
    let mut best = None;
    for report in reports {
        if is_by_informed(report) {
            let pair = (report.group, report.turn);
            best = Some(best.map_or(pair, |best| greater_pair(best, pair)));
        }
    }
    best
}

/// Whether a report goes with a decision, or with none where that is missing.
///
/// The reported length is in the decision's window, its ends included. An informed process is of the decision's group, or of
/// a lower one and a member by the same incarnation. One that is ready follows the decision's group, at no later turn.
pub fn consistent(report: &Report, d: Option<&Decision>) -> bool
    requires { IfSome (option_copied d) (λ d. d.low < 2 ^ 61) }
    ensures { result ≡ is_consistent (option_copied d.entry) report.now }
{
    match d {
        None => goes_with_none(report),
        Some(d) => {
            let end = d.low + d.window.len() as u64;
            d.low <= report.length && report.length <= end && goes_with(report, d)
        }
    }
}

fn goes_with_none(report: &Report) -> bool
    ensures { result ≡ is_consistent None report.now }
{
    report.length == 0 && report.group == 0 && (report.kind == Kind::Informed || report.turn == 0)
}

fn goes_with(report: &Report, d: &Decision) -> bool
    ensures { result ≡ goes_with report.now.kind report.now d.now }
{
    match report.kind {
        Kind::Informed => report.group == d.group
            || report.group < d.group && has_seat(report.member, d),
        Kind::Ready => report.group == d.group && report.turn <= d.turn,
    }
}

fn has_seat(member: Member, d: &Decision) -> bool
    ensures { result ≡ has_seat member d.now }
{
    d.seats.iter().any(|seat| seat.member == member)
}

/// Whether the process that reports is informed.
pub(crate) fn is_by_informed(report: &Report) -> bool
    ensures { result ≡ is_by_informed report.now }
{
    report.kind == Kind::Informed
}

/// Whether the first pair of a group and a turn is below the second.
pub(crate) fn is_older(a: (u64, u64), b: (u64, u64)) -> bool
    ensures { result ≡ is_older a.0 a.1 b.0 b.1 }
{
    a.0 < b.0 || a.0 == b.0 && a.1 < b.1
}

fn greater_pair(a: (u64, u64), b: (u64, u64)) -> (u64, u64)
    ensures { result ≡ greater_pair a b }
{
    if is_older(a, b) { b } else { a }
}
