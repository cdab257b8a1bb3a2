//! Who is a member of a group, and what its seat says.

ghost use Rattle.tw_types.specs.Turns.{least};
ghost use Rattle.std.specs.Prelude.{◌≡◌, ◌==◌, ◌<◌, ◌≤◌, ◌^◌, IfSome, filter, find, length, map};
ghost use Rattle.std.specs.List.{filter_map};
ghost use Rattle.tw_types.specs.declared.message.Report.{Report};
ghost use Rattle.tw_types.specs.Decisions.{is_same_member, is_seat_of};
ghost use Rattle.tw_types.specs.Groups.{ascending, consistent, next_of, seat_of};

use arrayvec::ArrayVec;
use tw_types::{Ballot, Decision, Member, Report, Seat, Support, Team};

/// The reports that go with the ballot's best decision, in the order of their arrival.
pub(crate) fn consistent(b: &Ballot) -> ArrayVec<Report, 15>
    requires { IfSome b.now.best (λ d. d.low < 2 ^ 61) }
    ensures { result.items ≡ consistent b.now }
{
    let mut consistent = ArrayVec::new();
    for report in b.reports.iter() {
        if group_book::consistent(report, b.best.as_ref()) {
            consistent.push(*report);
        }
    }
    consistent
}

/// The report of each process that has one among these, in ascending order.
pub(crate) fn seated(n: u8, reports: &[Report]) -> ArrayVec<Report, 15>
    requires { n ≤ 15 }
    ensures { result.items ≡ ascending n reports.now }
{
    let mut seated = ArrayVec::new();
    for who in 0..n {
        if let Some(report) = report_of(who, reports) {
            seated.push(report);
        }
    }
    seated
}

/// The first report of a process.
fn report_of(who: u8, reports: &[Report]) -> Option<Report>
    ensures { result ≡ find (λ (r : Report). r.member.who == who) reports.now }
{
    reports
        .iter()
        .copied()
        .find(|report| report.member.who == who)
}

/// The seats of these members in a group that `me` makes at `t`.
pub(crate) fn seats(best: &Decision, me: Member, t: u64, members: &[Report]) -> ArrayVec<Seat, 15>
    requires low { best.now.low < 2 ^ 61 }
    requires members { length members.now ≤ 15 }
    ensures { result.items ≡ map (seat_of best.now me t) members.now }
{
    let mut seats = ArrayVec::new();
    for report in members {
        seats.push(seat_of(best, me, t, report));
    }
    seats
}

/// A member's seat. That of `me` alone has a support.
fn seat_of(best: &Decision, me: Member, t: u64, report: &Report) -> Seat
    requires { best.now.low < 2 ^ 61 }
    ensures { result ≡ seat_of best.now me t report.now }
{
    let ack = best.low + best.window.len() as u64;
    Seat {
        member: report.member,
        next: next_of(best, report.member),
        support: if report.member == me {
            Some(Support { ack, at: t })
        } else {
            None
        },
    }
}

/// The seq of a member's next update: where it was a member before, what it was then, and else 1.
fn next_of(best: &Decision, member: Member) -> u32
    ensures { result ≡ next_of best.now member }
{
    seat_before(best, member).map_or(1, |seat| seat.next)
}

fn seat_before(best: &Decision, member: Member) -> Option<Seat>
    ensures { result ≡ find (is_seat_of member) best.now.seats.items }
{
    best.seats
        .iter()
        .copied()
        .find(|seat| seat.member == member)
}

/// The least length that is reported, 0 where there is no report.
pub(crate) fn least_length(seated: &[Report]) -> u64
    ensures { result ≡ least (map (λ (r : Report). r.length) seated.now) }
{
    let mut least = None;
    for report in seated {
        let length = report.length;
        least = Some(least.map_or(length, |least: u64| least.min(length)));
    }
    least.unwrap_or(0)
}
