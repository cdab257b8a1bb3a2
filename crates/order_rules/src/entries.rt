//! One entry: when it is ripe, what it goes before, and when it is late.

ghost use Rattle.std.specs.Prelude.{◌≡◌, []};
ghost use Rattle.tw_types.specs.Updates.{is_timed};
ghost use Rattle.tw_types.specs.Appending.{is_ripe, goes_before, mark_of, is_above, moves_mark, is_late};

use tw_types::{Entry, Order, Team, TimeMark};

fn is_timed(entry: &Entry) -> bool
    ensures { result ≡ is_timed entry.now.order }
{
    entry.order == Order::Timed
}

/// Whether the wait before a timed update is ordered is over. Others don't wait.
pub(crate) fn is_ripe(team: &Team, t: u64, entry: &Entry) -> bool
    ensures { result ≡ is_ripe team.now t entry.now }
{
    !is_timed(entry) || team.theta <= t && entry.stamp <= t - team.theta
}

/// Whether the first of two entries goes before the second where both may come.
pub(crate) fn goes_before(a: &Entry, b: &Entry) -> bool
    ensures { result ≡ goes_before a.now b.now }
{
    if is_timed(a) {
        !is_timed(b) || a.stamp < b.stamp || a.stamp == b.stamp && a.id.who < b.id.who
    } else {
        !is_timed(b) && a.id.who < b.id.who
    }
}

pub(crate) fn mark_of(entry: &Entry) -> TimeMark
    ensures { result ≡ mark_of entry.now }
{
    TimeMark {
        stamp: entry.stamp,
        who: entry.id.who,
        seq: entry.id.seq,
    }
}

fn is_above(a: &TimeMark, b: &TimeMark) -> bool
    ensures { result ≡ is_above a.now b.now }
{
    a.stamp > b.stamp || a.stamp == b.stamp && (a.who > b.who || a.who == b.who && a.seq > b.seq)
}

/// Whether an entry at the end of the list is late.
pub(crate) fn is_late(mark: &TimeMark, entry: &Entry) -> bool
    ensures { result ≡ is_late mark.now [] entry.now }
{
    is_timed(entry) && !is_above(&mark_of(entry), mark)
}

pub(crate) fn moves_mark(entry: &Entry) -> bool
    ensures { result ≡ moves_mark entry.now }
{
    is_timed(entry) && !entry.late
}
