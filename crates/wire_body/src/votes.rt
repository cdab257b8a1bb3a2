//! The two bodies of a vote that carry reports and a decision.

ghost use Rattle.std.specs.Prelude.{◌≡◌, ◌==◌, ◌&&◌, ◌+◌, ◌*◌, ◌<◌, ◌≤◌, ◌^◌, not, length, Some, None, IfSome, Ok};
ghost use Rattle.std.specs.List.{list_all};
ghost use Rattle.std.proofs.Common.{rules};
ghost use Rattle.tw_types.specs.declared.message.Report.{Report};
ghost use Rattle.tw_types.specs.declared.datagram.Body.TheVariants as bodies;
ghost use Rattle.tw_types.specs.Bytes.{guarded, eight};
ghost use Rattle.tw_types.specs.Spelling.{kind_number, report_bytes, body_bytes};
ghost use Rattle.wire_head.specs.Reading.{count_at, guarded_at, positive_at};
ghost use Rattle.wire_head.specs.Writing.{Writes};
ghost use Rattle.wire_body.specs.Lists.{optional_at, Leaves};
ghost use Rattle.wire_body.specs.Decisions.{decision_at, decision_size};
ghost use Rattle.wire_body.specs.Votes.{is_reporter, kind_from, is_reported_group, last_kind, report_at, sender, is_with_decision, promise_at, promise_of, optional_size, later, latest, reports_at, no_decision_at, no_decision_of};
ghost use Rattle.wire_body.specs.Reading.{in_body, whole};

use crate::decisions::{
    decision_size, fill_decision, is_told, put_decision, put_decision_if, told_count_at,
};
use crate::items::{Item, fill_items, presence, put_list};
use crate::reading::ends_at;
use arrayvec::ArrayVec;
use tw_types::{Body, Datagram, Decision, Head, Kind, Member, Report, WireFault};
use wire_head::reading::{
    byte_at, byte_below, byte_to, count_at, positive_at, u64_at, where_allowed, zeros_at,
};
use wire_head::writing::{put_byte, put_u64, put_zeros};

/// A vote, as far as it decides which reports are allowed.
#[derive(Clone, Copy)]
pub struct Vote {
    /// The team's size.
    pub n: u8,
    /// The number that is voted on.
    pub number: u64,
}

#[tactic(auto, unfolding(crate::specs::Lists::optional_at, wire_head::specs::Reading::guarded_at))]
fn support_at(bytes: &[u8], place: usize) -> Result<Option<u64>, WireFault>
    requires { place < 2 ^ 14 + 64 }
    ensures { result ≡ optional_at 1 count_at bytes.now place }
{
    let present = byte_to(1, bytes, place)?;
    if present == 1 {
        Ok(Some(count_at(bytes, place + 1)?))
    } else {
        zeros_at(1, bytes, place + 1)?;
        Ok(None)
    }
}

/// Whether no report is of this process.
fn are_of_others(reports: &[Report], who: u8) -> bool
    ensures { result ≡ list_all (λ (r : Report). not (r.member.who == who)) reports.now }
{
    reports.iter().all(|report| report.member.who != who)
}

fn is_reporter(n: u8, told: Option<Member>, before: &[Report], who: u8) -> bool
    ensures { result ≡ is_reporter n told before.now who }
{
    who < n
        && is_told(told.map(|member| member.who.into()), who.into())
        && are_of_others(before, who)
}

fn kind_from(number: u8) -> Kind
    ensures { result ≡ kind_from number }
{
    if number == 0 {
        Kind::Informed
    } else {
        Kind::Ready
    }
}

fn last_kind(told: Option<Member>) -> u8
    ensures { result ≡ last_kind told }
{
    match told {
        None => 0,
        Some(_) => 1,
    }
}

fn is_reported_group(number: u64, told: Option<Member>, kind: u8, group: u64) -> bool
    ensures { result ≡ is_reported_group number told kind group }
{
    group < 1 << 60 && (kind != 0 || group < number) && (told.is_some() || 1 <= group)
}

/// A report at a place. It is of the member that was told. Where none was, it is one of several that are gathered, and
/// those before it are at hand.
#[tactic(auto, unfolding(crate::specs::Votes::report_at, wire_head::specs::Reading::checked_at))]
fn report_at(
    vote: &Vote,
    told: Option<Member>,
    before: &[Report],
    bytes: &[u8],
    place: usize,
) -> Result<Report, WireFault>
    requires { place < 2 ^ 14 }
    ensures { result ≡ report_at vote.now.n vote.now.number told before.now bytes.now place }
{
    let who = byte_at(bytes, place)?;
    where_allowed(is_reporter(vote.n, told, before, who), (), place)?;
    let told_incarnation = told.map(|member| member.incarnation);
    let incarnation = told_count_at(told_incarnation, bytes, place + 1)?;
    let kind = byte_to(last_kind(told), bytes, place + 9)?;
    let group = u64_at(bytes, place + 10)?;
    where_allowed(
        is_reported_group(vote.number, told, kind, group),
        (),
        place + 10,
    )?;
    let turn = count_at(bytes, place + 18)?;
    let length = count_at(bytes, place + 26)?;
    let support = support_at(bytes, place + 34)?;
    let reading = count_at(bytes, place + 43)?;
    Ok(Report {
        member: Member { who, incarnation },
        kind: kind_from(kind),
        group,
        turn,
        length,
        support,
        reading,
    })
}

fn kind_number(kind: Kind) -> u8
    ensures { result ≡ kind_number kind }
{
    match kind {
        Kind::Informed => 0,
        Kind::Ready => 1,
    }
}

fn put_support(out: &mut [u8; 4096], place: usize, support: Option<u64>) -> usize
    requires { place + 8 ≤ 4096 }
    ensures end { result ≡ place + 8 }
    ensures text { Writes out.old place (guarded 1 eight support) out.new result }
{
    match support {
        None => put_zeros(out, place, 1),
        Some(support) => put_u64(out, place, support),
    }
}

fn put_report(out: &mut [u8; 4096], place: usize, report: &Report) -> usize
    requires { place + 51 ≤ 4096 }
    ensures end { result ≡ place + 51 }
    ensures text { Writes out.old place (report_bytes report.now) out.new result }
{
    let place = put_byte(out, place, report.member.who);
    let place = put_u64(out, place, report.member.incarnation);
    let place = put_byte(out, place, kind_number(report.kind));
    let place = put_u64(out, place, report.group);
    let place = put_u64(out, place, report.turn);
    let place = put_u64(out, place, report.length);
    let place = put_byte(out, place, presence(&report.support));
    let place = put_support(out, place, report.support);
    put_u64(out, place, report.reading)
}

/// A report that is gathered.
impl Item for Report {
    type Rules = Vote;

    const SIZE: usize = 51;

    ghost SIZE = { 51 };

    ghost item_at = { λ vote. report_at vote.n vote.number None };

    ghost item_bytes = { report_bytes };

    fn read(
        vote: &Vote,
        before: &[Report],
        bytes: &[u8],
        place: usize,
    ) -> Result<Report, WireFault> {
        report_at(vote, None, before, bytes, place)
    }

    fn put(&self, out: &mut [u8; 4096], place: usize) -> usize {
        put_report(out, place, self)
    }

    ghost small = { Prim.search rules };
}

/// Whether a decision goes with this report.
fn is_with_decision(report: &Report) -> bool
    ensures { result ≡ is_with_decision report.now }
{
    report.kind == Kind::Informed && 1 <= report.group
}

/// Makes a decision that may be there the one of a report, or none.
#[tactic(auto, unfolding(wire_head::specs::Reading::guarded_at, wire_head::specs::Reading::zeros_at))]
fn decision_if(
    present: bool,
    n: u8,
    report: &Report,
    bytes: &[u8],
    decision: &mut Option<Decision>,
) -> Result<(), WireFault>
    requires { n ≤ 15 }
    ensures { Leaves result decision.new (guarded_at present 0 (decision_at n (Some report.now.group) (Some report.now.turn)) bytes.now 117) }
{
    if !present {
        *decision = None;
        return Ok(());
    }
    if decision.is_none() {
        *decision = Some(Decision::default());
    }
    match decision {
        Some(decision) => fill_decision(
            n,
            Some(report.group),
            Some(report.turn),
            bytes,
            117,
            decision,
        ),
        None => Ok(()),
    }
}

fn optional_size(decision: &Option<Decision>) -> usize
    ensures exact { result ≡ optional_size decision.now }
    ensures most { result ≤ 1210 }
{
    match decision {
        None => 0,
        Some(decision) => decision_size(decision),
    }
}

/// Makes the parts of a promise the ones that the bytes spell, in place of those that were there.
#[tactic(auto, unfolding(crate::specs::Votes::promise_at, wire_head::specs::Reading::checked_at))]
fn fill_promise(
    n: u8,
    head: &Head,
    bytes: &[u8],
    number: &mut u64,
    report: &mut Report,
    decision: &mut Option<Decision>,
) -> Result<(), WireFault>
    requires { n ≤ 15 }
    ensures { Leaves result (record { number = number.new; report = report.new; decision = decision.new }) (promise_at n head.now bytes.now) }
{
    *number = positive_at(bytes, 57)?;
    let sender = Member {
        who: head.from,
        incarnation: head.incarnation,
    };
    let vote = Vote { n, number: *number };
    *report = report_at(&vote, Some(sender), &[], bytes, 65)?;
    let present = byte_at(bytes, 116)?;
    let expected = is_with_decision(report);
    where_allowed(present == u8::from(expected), (), 116)?;
    decision_if(present == 1, n, report, bytes, decision)
}

#[inline(never)]
pub fn promise_in(
    n: u8,
    head: &Head,
    bytes: &[u8],
    datagram: &mut Datagram,
) -> Result<(), WireFault>
    requires { n ≤ 15 }
    ensures { Leaves result datagram.new (whole head.now bytes.now (in_body promise_of (λ p. 117 + optional_size p.decision) (promise_at n head.now bytes.now))) }
{
    datagram.head = *head;
    if !matches!(datagram.body, Body::Promise { .. }) {
        datagram.body = Body::Promise {
            number: 0,
            report: Report::default(),
            decision: None,
        };
    }
    match &mut datagram.body {
        Body::Promise {
            number,
            report,
            decision,
        } => {
            fill_promise(n, head, bytes, number, report, decision)?;
            ends_at(bytes, 117 + optional_size(decision))
        }
        _ => Err(WireFault::Kind),
    }
}

/// The later of a group and turn and those of a report.
fn later(best: (u64, u64), report: &Report) -> (u64, u64)
    ensures { result ≡ later best report.now }
{
    let (group, turn) = best;
    if group < report.group || group == report.group && turn < report.turn {
        (report.group, report.turn)
    } else {
        best
    }
}

/// The greatest group and turn.
fn latest(reports: &[Report]) -> (u64, u64)
    ensures { result ≡ latest reports.now }
{
    reports.iter().fold((0, 0), later)
}

/// The reports behind their number, which is from 1 to the size of the team.
#[tactic(auto, unfolding(crate::specs::Votes::reports_at, crate::specs::Lists::counted_at, wire_head::specs::Reading::checked_at))]
fn fill_reports(
    vote: &Vote,
    bytes: &[u8],
    place: usize,
    reports: &mut ArrayVec<Report, 15>,
) -> Result<(), WireFault>
    requires size { vote.now.n ≤ 15 }
    requires place { place < 2 ^ 13 }
    ensures { Leaves result reports.new.items (reports_at vote.now.n vote.now.number bytes.now place) }
{
    let count = byte_at(bytes, place)?;
    where_allowed(1 <= count && count <= vote.n, (), place)?;
    fill_items(vote, count, bytes, place + 1, reports)
}

/// Makes the parts of a no-decision behind its number, which was read, the ones that the bytes spell.
#[tactic(auto, unfolding(crate::specs::Votes::no_decision_at))]
fn fill_no_decision(
    vote: &Vote,
    bytes: &[u8],
    group: &mut u64,
    turn: &mut u64,
    skip: &mut u8,
    reports: &mut ArrayVec<Report, 15>,
    best: &mut Decision,
) -> Result<(), WireFault>
    requires size { vote.now.n ≤ 15 }
    requires number { positive_at bytes.now 57 ≡ Ok vote.now.number }
    ensures { Leaves result (record { number = vote.now.number; group = group.new; turn = turn.new; skip = skip.new; reports = reports.new.items; best = best.new }) (no_decision_at vote.now.n bytes.now) }
{
    *group = positive_at(bytes, 65)?;
    *turn = count_at(bytes, 73)?;
    *skip = byte_below(vote.n, bytes, 81)?;
    fill_reports(vote, bytes, 82, reports)?;
    let (best_group, best_turn) = latest(reports.as_slice());
    let behind = 83 + 51 * reports.len();
    fill_decision(
        vote.n,
        Some(best_group),
        Some(best_turn),
        bytes,
        behind,
        best,
    )
}

#[tactic(auto, unfolding(crate::specs::Votes::no_decision_at))]
#[inline(never)]
pub fn no_decision_in(
    n: u8,
    head: &Head,
    bytes: &[u8],
    datagram: &mut Datagram,
) -> Result<(), WireFault>
    requires { n ≤ 15 }
    ensures { Leaves result datagram.new (whole head.now bytes.now (in_body no_decision_of (λ g. 83 + 51 * length g.reports + decision_size g.best) (no_decision_at n bytes.now))) }
{
    datagram.head = *head;
    let vote = Vote {
        n,
        number: positive_at(bytes, 57)?,
    };
    if !matches!(datagram.body, Body::NoDecision { .. }) {
        datagram.body = Body::NoDecision {
            number: 0,
            group: 0,
            turn: 0,
            skip: 0,
            reports: ArrayVec::new(),
            best: Decision::default(),
        };
    }
    match &mut datagram.body {
        Body::NoDecision {
            number,
            group,
            turn,
            skip,
            reports,
            best,
        } => {
            *number = vote.number;
            fill_no_decision(&vote, bytes, group, turn, skip, reports, best)?;
            ends_at(bytes, 83 + 51 * reports.len() + decision_size(best))
        }
        _ => Err(WireFault::Kind),
    }
}

pub fn put_promise(
    out: &mut [u8; 4096],
    number: u64,
    report: &Report,
    decision: &Option<Decision>,
) -> usize
    requires seats { IfSome decision.now (λ d. length d.seats.items ≤ 15) }
    requires window { IfSome decision.now (λ d. length d.window.items ≤ 32) }
    ensures { Writes out.old 57 (body_bytes (bodies.Promise number report.now decision.now)) out.new result }
{
    let place = put_u64(out, 57, number);
    let place = put_report(out, place, report);
    let place = put_byte(out, place, presence(decision));
    put_decision_if(out, place, decision)
}

pub fn put_no_decision(
    out: &mut [u8; 4096],
    number: u64,
    group: u64,
    turn: u64,
    skip: u8,
    reports: &ArrayVec<Report, 15>,
    best: &Decision,
) -> usize
    requires reports { length reports.now.items ≤ 15 }
    requires seats { length best.now.seats.items ≤ 15 }
    requires window { length best.now.window.items ≤ 32 }
    ensures { Writes out.old 57 (body_bytes (bodies.NoDecision number group turn skip reports.now best.now)) out.new result }
{
    let place = put_u64(out, 57, number);
    let place = put_u64(out, place, group);
    let place = put_u64(out, place, turn);
    let place = put_byte(out, place, skip);
    let place = put_list(out, place, reports.as_slice());
    put_decision(out, place, best)
}
