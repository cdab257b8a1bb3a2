//! What is delivered next.

ghost use Rattle.std.specs.Prelude.{◌≡◌, ◌≤◌, max};
ghost use Rattle.tw_types.specs.Beliefs.{Log};
ghost use Rattle.tw_types.specs.Logs.{kept_from};
ghost use Rattle.tw_types.specs.Deliveries.{passes_at, how_passed, next_pass, PassStep, early_at, may_go_early, next_early, IsNextEarly, EarlyStep};
ghost use Rattle.oal.specs.StandsFor.{StandsFor};

use crate::atomicity::fulfils;
use oal::Oal;
use tw_types::{Decision, How, Kept, Order, Team};

/// How the position at the cursor passes. None exactly where the cursor stands at the end of the list, or where the update
/// there is neither late nor has its atomicity fulfilled, as the last decision `d` tells.
///
/// It is the first of all passes, and `Oal::pass` leaves the others; where it is None there are none.
pub fn next_pass(team: &Team, d: &Decision, log: &Oal) -> Option<How>
    ensures exact { (l : Log) → StandsFor log.now l → result ≡ next_pass team.now d.now l }
    ensures step { (l : Log) → StandsFor log.now l → PassStep team.now d.now l result }
{
    let position = log.passed();
    let kept = log.at(position)?;
    if passes_at(team, d, position, kept) {
        Some(how_passed(kept))
    } else {
        None
    }
}

/// Whether an update passes at a position: it is late, or its atomicity is fulfilled there.
fn passes_at(team: &Team, d: &Decision, position: u64, kept: &Kept) -> bool
    ensures { result ≡ passes_at team.now d.now position kept.now }
{
    kept.entry.late || fulfils(team, d, position, kept.entry.atom)
}

fn how_passed(kept: &Kept) -> How
    ensures { result ≡ how_passed kept.now }
{
    if kept.entry.late {
        How::Late
    } else if kept.entry.order == Order::Unordered && kept.early {
        How::Earlier
    } else {
        How::Now
    }
}

/// The least position that is neither below `from` nor below the cursor and whose update is delivered early: it is unordered,
/// isn't marked as early, and has its atomicity fulfilled, as the last decision `d` tells. None exactly where there is none.
///
/// It is the first of the early deliveries from there on, and `Oal::mark_early` leaves the others, all behind it.
pub fn next_early(team: &Team, d: &Decision, log: &Oal, from: u64) -> Option<u64>
    ensures exact { (l : Log) → StandsFor log.now l → result ≡ next_early team.now d.now l from }
    ensures least { (l : Log) → StandsFor log.now l → IsNextEarly team.now d.now l from result }
    ensures step { (l : Log) → StandsFor log.now l → EarlyStep team.now d.now (max from l.passed) l result }
{
    (first_unpassed(log, from)..log.length()).find(|position| may_go_early(team, d, log, *position))
}

/// The first position that is neither below `from` nor below the cursor.
fn first_unpassed(log: &Oal, from: u64) -> u64
    ensures exact { (l : Log) → StandsFor log.now l → result ≡ max from l.passed }
    ensures kept { (l : Log) → StandsFor log.now l → kept_from l ≤ result }
{
    from.max(log.passed())
}

/// Whether the update at a position that isn't passed is delivered early.
fn may_go_early(team: &Team, d: &Decision, log: &Oal, position: u64) -> bool
    ensures { (l : Log) → StandsFor log.now l → kept_from l ≤ position → result ≡ may_go_early team.now d.now l position }
{
    log.at(position)
        .is_some_and(|kept| early_at(team, d, position, kept))
}

fn early_at(team: &Team, d: &Decision, position: u64, kept: &Kept) -> bool
    ensures { result ≡ early_at team.now d.now position kept.now }
{
    kept.entry.order == Order::Unordered
        && !kept.early
        && fulfils(team, d, position, kept.entry.atom)
}
