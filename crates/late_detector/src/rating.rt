//! How long a packet was on its way at most, and whether that is in time. It keeps nothing.

ghost use Rattle.std.specs.Prelude.{◌≡◌, ◌<◌, ◌≤◌, ◌^◌, ◌⊎◌, IfSome, IfNone};
ghost use Rattle.tw_num.specs.Rate.{echo_bound, interval_bound, lesser, rate};
ghost use Rattle.late_detector.specs.Rating.{rating};
ghost use Rattle.tw_types.specs.Trips.{trip, trip_of};

use tw_num::{Interval, down, up};
use tw_types::{Echo, Head, Team};

/// Whether a packet came in time, and by which bound of its delay, in microseconds.
#[derive(Clone, Copy, Debug, PartialEq, Eq)]
pub enum Rating {
    /// It was on its way for at most this long, which is within the time-out.
    Timely(u64),
    /// This is the least bound there is, and it is above the time-out.
    Late(u64),
    /// There is no bound.
    Unrated,
}

/// The most that a packet can have been on its way, in microseconds, by the clocks of its sender and its receiver over a
/// round trip. The packet was sent at the sender's reading `sent`, carried `echo`, and arrived at the receiver's reading
/// `h`. Clocks drift by at most `ppm` parts per million.
///
/// None exactly where a clock fell on the way: where `echo.a > h` or `echo.b > sent`.
pub fn echo_bound(echo: Echo, sent: u64, h: u64, ppm: u64) -> Option<u64>
    requires drift { ppm ≤ 1000 }
    requires reading { h < 2 ^ 60 }
    requires sent { sent < 2 ^ 60 }
    ensures exact { result ≡ echo_bound ppm (trip echo sent h) }
    ensures some { IfSome result (λ _. (echo.a ≤ h) × (echo.b ≤ sent)) }
    ensures none { IfNone result ((h < echo.a) ⊎ (sent < echo.b)) }
    ensures range { IfSome result (λ bound. bound < 2 ^ 61) }
{
    if echo.a > h || echo.b > sent {
        return None;
    }
    let whole = up(h - echo.a, ppm);
    let waited = down(sent - echo.b, ppm).max(0) as u64;
    Some(whole.saturating_sub(waited))
}

/// Rates a packet by its head. It arrived at the receiver's reading `h`, where the receiver's own interval was `own`.
///
/// It is rated by the lesser of its bounds: timely exactly where that is at most `team.delta`. It is unrated exactly
/// where it has none.
pub fn rate(team: &Team, head: &Head, own: Option<Interval>, h: u64) -> Rating
    requires drift { team.now.ppm ≤ 1000 }
    requires reading { h < 2 ^ 60 }
    requires sent { head.now.sent < 2 ^ 60 }
    ensures { result ≡ rating (rate team.now.ppm team.now.delta (trip_of head.now h) own head.now.interval) }
{
    let by_echo = head
        .echo
        .and_then(|echo| echo_bound(echo, head.sent, h, team.ppm));
    match lesser(by_echo, interval_bound(own, head.interval)) {
        None => Rating::Unrated,
        Some(bound) if bound <= team.delta => Rating::Timely(bound),
        Some(bound) => Rating::Late(bound),
    }
}

/// The receiver's upper end less the sender's lower end, at least 0, where both have an interval.
fn interval_bound(own: Option<Interval>, theirs: Option<Interval>) -> Option<u64>
    ensures { result ≡ interval_bound own theirs }
{
    Some(own?.hi.saturating_sub(theirs?.lo))
}

/// The lesser of those that are there.
fn lesser(x: Option<u64>, y: Option<u64>) -> Option<u64>
    ensures { result ≡ lesser x y }
{
    match (x, y) {
        (Some(x), Some(y)) => Some(x.min(y)),
        (x, None) => x,
        (None, y) => y,
    }
}
