//! The two numbers that stand for all intervals that a clock was given. `TeamClock` alone uses them.

ghost use Rattle.std.specs.Prelude.{◌≡◌, ◌+◌, ◌*◌, ◌-◌, ◌<◌, ◌≤◌, ◌^◌, Some};
ghost use Rattle.clock_sync.specs.Keys.{ends, narrowed, IsInRange};

use tw_num::Interval;

/// Drift is in parts of this.
const MILLION: u128 = 1_000_000;

/// Keys are kept raised by this, so that none is below 0.
const RAISED: u128 = (1 << 60) * 1_000_000;

/// What stands for all the intervals that a clock was given: the greatest `lo * (1000000 + ppm) - h * 1000000` and the
/// least `hi * (1000000 - ppm) - h * 1000000`, each raised by `2^60 * 1000000`. Aged ends are floors of one common
/// fraction of these, so they keep their order.
#[derive(Clone, Copy)]
pub struct Keys {
    pub low: u128,
    pub high: u128,
}

impl Keys {
    /// The keys of the interval from `lo` to `hi`, in microseconds, that was given at the reading `h`.
    pub fn of(h: u64, lo: u64, hi: u64, ppm: u64) -> Keys
        requires reading { h < 2 ^ 60 }
        requires ordered { lo ≤ hi }
        requires range { hi < 3 * 2 ^ 61 }
        requires drift { ppm ≤ 1000 }
        ensures low { result.low + h * 1000000 ≡ lo * (1000000 + ppm) + 2 ^ 60 * 1000000 }
        ensures high { result.high + h * 1000000 ≡ hi * (1000000 - ppm) + 2 ^ 60 * 1000000 }
        ensures range { IsInRange result }
    {
        let at = u128::from(h) * MILLION;
        let drift = u128::from(ppm);
        Keys {
            low: u128::from(lo) * (MILLION + drift) + (RAISED - at),
            high: u128::from(hi) * (MILLION - drift) + (RAISED - at),
        }
    }

    /// The keys of what `self` and `before` stand for together.
    pub fn narrowed(self, before: Option<Keys>) -> Keys
        ensures { result ≡ narrowed before self }
    {
        match before {
            None => self,
            Some(keys) => Keys {
                low: self.low.max(keys.low),
                high: self.high.min(keys.high),
            },
        }
    }

    /// The ends that these keys give at the reading `h`.
    pub fn ends(self, h: u64, ppm: u64) -> Interval
        requires reading { h < 2 ^ 60 }
        requires drift { ppm ≤ 1000 }
        requires range { IsInRange self }
        ensures exact { result ≡ ends ppm h self }
        ensures low { result.lo < 2 ^ 63 }
        ensures high { result.hi < 2 ^ 63 }
    {
        let at = u128::from(h) * MILLION;
        let drift = u128::from(ppm);
        let low = (self.low + at).saturating_sub(RAISED + MILLION) / (MILLION + drift);
        let high = (self.high + at + MILLION).saturating_sub(RAISED) / (MILLION - drift);
        Interval {
            lo: low as u64,
            hi: high as u64,
        }
    }
}
