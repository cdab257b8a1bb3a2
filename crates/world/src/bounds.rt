//! What is kept of a process's readings: the last, and two bounds that stand for all earlier ones.

ghost use Rattle.std.specs.Prelude.{◌≡◌, ◌≤◌, ◌+◌, ◌-◌, ◌*◌, Some};
ghost use Rattle.world.specs.Bounds.{raised, admits, widened};

/// Drift is in parts of this, and one tick that is given to rounding counts so much.
const MILLION: u128 = 1_000_000;

/// Bounds are kept raised by this, so that none is below 0.
const RAISED: u128 = (1 << 64) * 1_001_000;

/// What stands for all readings of a hardware clock, each of `h` ticks at a team time `t` in microseconds: the last `h`,
/// the least `h * 1000000 - t * (1000000 + ppm)` and the greatest `h * 1000000 - t * (1000000 - ppm)`, both raised by
/// `2^64 * 1001000`.
#[derive(Clone, Copy)]
pub struct Bounds {
    pub last: u64,
    pub least: u128,
    pub greatest: u128,
}

impl Bounds {
    /// The bounds of the one reading of `h` ticks at the team time `t`, for a drift of at most `ppm` parts per million.
    pub fn of(ppm: u64, t: u64, h: u64) -> Bounds
        requires { ppm ≤ 1000 }
        ensures last { result.last ≡ h }
        ensures least { result.least + t * (1000000 + ppm) ≡ raised h }
        ensures greatest { result.greatest + t * (1000000 - ppm) ≡ raised h }
    {
        let ticks = u128::from(h) * MILLION + RAISED;
        let time = u128::from(t);
        let drift = u128::from(ppm);
        Bounds {
            last: h,
            least: ticks - time * (MILLION + drift),
            greatest: ticks - time * (MILLION - drift),
        }
    }

    /// Whether a clock that drifts by at most `ppm` parts per million, and had the readings of these bounds, may read `h`
    /// at a team time `t` that is not before any of them.
    pub fn admit(self, ppm: u64, t: u64, h: u64) -> bool
        requires { ppm ≤ 1000 }
        ensures { result ≡ admits ppm (Some self) t h }
    {
        let reading = Bounds::of(ppm, t, h);
        self.last <= h
            && reading.least.saturating_sub(MILLION) <= self.least
            && self.greatest.saturating_sub(MILLION) <= reading.greatest
    }

    /// The bounds of the readings of `before` with the later ones of `self`.
    pub fn widened(self, before: Option<Bounds>) -> Bounds
        ensures { result ≡ widened before self }
    {
        match before {
            None => self,
            Some(bounds) => Bounds {
                last: self.last,
                least: self.least.min(bounds.least),
                greatest: self.greatest.max(bounds.greatest),
            },
        }
    }
}
