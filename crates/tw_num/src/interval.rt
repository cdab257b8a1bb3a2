//! Intervals that hold team time: how they age, and what two of them share. `clock_sync` alone keeps them.

use crate::{down, up};

/// A closed interval of team time, in microseconds. One with `hi` below `lo` holds no time.
#[derive(Clone, Copy, Debug, PartialEq, Eq)]
pub struct Interval {
    pub lo: u64,
    pub hi: u64,
}

/// Two intervals that should both hold team time and share no number: what was known, and what was given then.
#[derive(Clone, Copy, Debug, PartialEq, Eq)]
pub struct Disjoint {
    pub have: Interval,
    pub got: Interval,
}

impl Interval {
    ghost use Rattle.std.specs.Prelude.{◌≡◌, ℕ, ◌+◌, ◌<◌, ◌≤◌, ◌^◌, IfSome, IfNone};
    ghost use Rattle.tw_num.specs.Elapsed.{MayElapse};
    ghost use Rattle.tw_num.specs.Interval.{Holds, aged, meet};

    /// The interval after `ticks` elapsed ticks of a clock with drift bound `ppm`: where it held team time before, the
    /// result holds it now. The lower end does not fall below 0.
    pub fn aged(self, ticks: u64, ppm: u64) -> Interval
        requires ticks { ticks < 2 ^ 60 }
        requires drift { ppm ≤ 1000 }
        requires ordered { self.lo ≤ self.hi }
        requires range { self.hi < 2 ^ 63 }
        ensures exact { result ≡ aged self ticks ppm }
        ensures holds { (t time : ℕ) → Holds self t → MayElapse ppm ticks time → Holds result (t + time) }
    {
        let lo = if ticks == 0 {
            self.lo.saturating_sub(1)
        } else {
            self.lo + down(ticks, ppm) as u64
        };
        Interval {
            lo,
            hi: self.hi + up(ticks, ppm),
        }
    }

    /// What both intervals hold. None exactly where they share no number.
    pub fn meet(self, other: Interval) -> Option<Interval>
        ensures exact { result ≡ meet self other }
        ensures shared { IfSome result (λ both. (t : ℕ) → Holds self t → Holds other t → Holds both t) }
        ensures no_more { IfSome result (λ both. (t : ℕ) → Holds both t → Holds self t × Holds other t) }
        ensures none { IfNone result ((t : ℕ) → Holds self t → Holds other t → ⊥) }
        ensures nonempty { IfSome result (λ both. both.lo ≤ both.hi) }
    {
        let lo = self.lo.max(other.lo);
        let hi = self.hi.min(other.hi);
        (lo <= hi).then_some(Interval { lo, hi })
    }
}
