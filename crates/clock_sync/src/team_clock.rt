//! The clock of one process. It is told intervals and asked for readings, and nothing else changes it.

use crate::keys::Keys;
use std::marker::Model;
use tw_num::{Disjoint, Interval};

/// The clock of one process since its start. The unit is one microsecond.
///
/// It keeps one number for each side of what it was given, whatever the number of given intervals.
#[derive(Clone, Copy)]
pub struct TeamClock {
    ppm: u64,
    eps: u64,
    keys: Option<Keys>,
    greatest: Option<u64>,
    disjoint: Option<Disjoint>,
}

impl Model for TeamClock {
    ghost use Rattle.std.specs.Prelude.{◌<◌, ◌≤◌, ◌^◌, IfSome};
    ghost use Rattle.clock_sync.specs.KeptClock.{KeptClock};
    ghost use Rattle.clock_sync.specs.Keys.{IsInRange};

    ghost Value = { KeptClock };

    ghost view = { λ a.
        record { ppm = a.ppm; eps = a.eps; keys = a.keys; greatest = a.greatest; disjoint = a.disjoint } };

    ghost invariant = { λ a. (a.ppm ≤ 1000) × IfSome a.keys IsInRange ×
        IfSome a.greatest (λ t. t < 2 ^ 60) };

    ghost inverse = { λ v.
        record { ppm = v.ppm; eps = v.eps; keys = v.keys; greatest = v.greatest; disjoint = v.disjoint } };
}

impl TeamClock {
    ghost use Rattle.std.specs.Prelude.{◌≡◌, ℕ, ◌+◌, ◌*◌, ◌<◌, ◌≤◌, ◌^◌, IfSome, MatchResult};
    ghost use Rattle.tw_num.specs.Clock.{Clock, delayed, fresh, IsNotBefore, refusal, clash, after_given};
    ghost use Rattle.tw_num.specs.Clock.{interval_at, reading_at, after_read, or_before};
    ghost use Rattle.clock_sync.specs.Keys.{interval_of};
    ghost use Rattle.clock_sync.specs.StandsFor.{StandsFor};

    /// A clock that was given nothing yet, over a hardware clock that drifts by at most `ppm` parts per million. It is
    /// read while its interval is at most `2 * eps` wide.
    pub fn new(ppm: u64, eps: u64) -> TeamClock
        requires drift { ppm ≤ 1000 }
        ensures { StandsFor ppm eps result fresh }
    {
        TeamClock {
            ppm,
            eps,
            keys: None,
            greatest: None,
            disjoint: None,
        }
    }

    /// Gives the clock an interval from `lo` to `hi` that holds team time at the reading `h`, which is not before that
    /// of any interval given earlier.
    ///
    /// It is refused where it shares no number with what the earlier ones share, and then the clock keeps the two as
    /// they are at `h`. From then on every interval is refused with the same two.
    pub fn reference(&mut self, h: u64, lo: u64, hi: u64) -> Result<(), Disjoint>
        requires reading { h < 2 ^ 60 }
        requires ordered { lo ≤ hi }
        requires range { hi < 2 ^ 62 }
        ensures refusal { (ppm eps : ℕ) (c : Clock) → StandsFor ppm eps self.old c → IsNotBefore h c →
            let why = refusal ppm h (record { lo = lo; hi = hi }) c
            in MatchResult result (λ _. why ≡ None) (λ d. why ≡ Some d) }
        ensures given { (ppm eps : ℕ) (c : Clock) → StandsFor ppm eps self.old c → IsNotBefore h c →
            StandsFor ppm eps self.new (after_given ppm h (record { lo = lo; hi = hi }) c) }
        // so the next call may be at h, or at any later reading
        ensures not_before { (ppm : ℕ) (c : Clock) → IsNotBefore h c →
            IsNotBefore h (after_given ppm h (record { lo = lo; hi = hi }) c) }
        ensures refused_before { IfSome self.old.disjoint (λ d. result ≡ Err d) }
        ensures kept { MatchResult result (λ _. self.new ≡ record self.old { keys = self.new.keys })
            (λ d. self.new ≡ record self.old { disjoint = Some d }) }
    {
        self.give(h, Interval { lo, hi })
    }

    /// Gives the clock what another process's datagram says: `interval` held team time when it was sent, and it was on
    /// its way for at most `bound` microseconds. It arrived at the reading `h`, which is not before that of any interval
    /// given earlier.
    ///
    /// What is given is the interval with its upper end `bound` later. It is refused as by `reference`.
    pub fn hear(&mut self, h: u64, interval: Interval, bound: u64) -> Result<(), Disjoint>
        requires reading { h < 2 ^ 60 }
        requires ordered { interval.lo ≤ interval.hi }
        requires range { interval.hi < 2 ^ 62 }
        requires bound { bound < 2 ^ 61 }
        ensures refusal { (ppm eps : ℕ) (c : Clock) → StandsFor ppm eps self.old c → IsNotBefore h c →
            let why = refusal ppm h (delayed interval bound) c
            in MatchResult result (λ _. why ≡ None) (λ d. why ≡ Some d) }
        ensures given { (ppm eps : ℕ) (c : Clock) → StandsFor ppm eps self.old c → IsNotBefore h c →
            StandsFor ppm eps self.new (after_given ppm h (delayed interval bound) c) }
        // so the next call may be at h, or at any later reading
        ensures not_before { (ppm : ℕ) (c : Clock) → IsNotBefore h c →
            IsNotBefore h (after_given ppm h (delayed interval bound) c) }
        ensures refused_before { IfSome self.old.disjoint (λ d. result ≡ Err d) }
        ensures kept { MatchResult result (λ _. self.new ≡ record self.old { keys = self.new.keys })
            (λ d. self.new ≡ record self.old { disjoint = Some d }) }
    {
        let hi = interval.hi + bound;
        self.give(h, Interval { hi, ..interval })
    }

    /// What holds team time at the reading `h`, which is not before that of any interval given. None exactly where
    /// nothing was given, or an interval was refused.
    pub fn interval(&self, h: u64) -> Option<Interval>
        requires { h < 2 ^ 60 }
        ensures exact { (ppm eps : ℕ) (c : Clock) → StandsFor ppm eps self.now c → IsNotBefore h c →
            result ≡ interval_at ppm h c }
        ensures disjoint { IfSome self.now.disjoint (λ _. result ≡ None) }
        ensures ordered { IfSome result (λ i. i.lo ≤ i.hi) }
        ensures range { IfSome result (λ i. i.hi < 2 ^ 63) }
    {
        if self.disjoint.is_some() {
            return None;
        }
        self.shared(h)
    }

    /// Team time at the reading `h`, which is not before that of any interval given: the middle of the interval, or the
    /// greatest reading so far where that is above it.
    ///
    /// None exactly where there is no interval, it is wider than `2 * eps`, or it ends at 2^60 or above.
    pub fn read(&mut self, h: u64) -> Option<u64>
        requires { h < 2 ^ 60 }
        ensures exact { (ppm eps : ℕ) (c : Clock) → StandsFor ppm eps self.old c → IsNotBefore h c →
            result ≡ reading_at ppm eps h c }
        ensures read { (ppm eps : ℕ) (c : Clock) → StandsFor ppm eps self.old c → IsNotBefore h c →
            StandsFor ppm eps self.new (after_read ppm eps h c) }
        ensures disjoint { IfSome self.old.disjoint (λ _. result ≡ None) }
        ensures never_falls { IfSome self.old.greatest (λ greatest. IfSome result (λ t. greatest ≤ t)) }
        ensures range { IfSome result (λ t. t < 2 ^ 60) }
        ensures kept { self.new ≡ record self.old { greatest = or_before result self.old.greatest } }
    {
        let interval = self.interval(h)?;
        if (interval.hi - interval.lo).div_ceil(2) > self.eps || interval.hi >= 1 << 60 {
            return None;
        }
        let middle = (interval.lo + interval.hi) / 2;
        let reading = self
            .greatest
            .map_or(middle, |greatest| middle.max(greatest));
        self.greatest = Some(reading);
        Some(reading)
    }

    /// Gives the clock an interval at the reading `h`, or refuses it.
    fn give(&mut self, h: u64, given: Interval) -> Result<(), Disjoint>
        requires reading { h < 2 ^ 60 }
        requires ordered { given.lo ≤ given.hi }
        requires range { given.hi < 3 * 2 ^ 61 }
        ensures refusal { (ppm eps : ℕ) (c : Clock) → StandsFor ppm eps self.old c → IsNotBefore h c →
            let why = refusal ppm h given c in MatchResult result (λ _. why ≡ None) (λ d. why ≡ Some d) }
        ensures given { (ppm eps : ℕ) (c : Clock) → StandsFor ppm eps self.old c → IsNotBefore h c →
            StandsFor ppm eps self.new (after_given ppm h given c) }
        ensures not_before { (ppm : ℕ) (c : Clock) → IsNotBefore h c → IsNotBefore h (after_given ppm h given c) }
        ensures refused_before { IfSome self.old.disjoint (λ d. result ≡ Err d) }
        ensures kept { MatchResult result (λ _. self.new ≡ record self.old { keys = self.new.keys })
            (λ d. self.new ≡ record self.old { disjoint = Some d }) }
    {
        if let Some(disjoint) = self.disjoint {
            return Err(disjoint);
        }
        let got = given.aged(0, self.ppm);
        if let Some(disjoint) = self.contradiction(h, got) {
            self.disjoint = Some(disjoint);
            return Err(disjoint);
        }
        self.keys = Some(Keys::of(h, given.lo, given.hi, self.ppm).narrowed(self.keys));
        Ok(())
    }

    /// What all the given intervals share at `h`. None where nothing was given, and where their ends have crossed, as they
    /// may only at a reading before that of a given one.
    fn shared(&self, h: u64) -> Option<Interval>
        requires { h < 2 ^ 60 }
        ensures exact { result ≡ interval_of self.now.ppm h self.now.keys }
        ensures range { IfSome result (λ i. i.hi < 2 ^ 63) }
    {
        let ends = self.keys?.ends(h, self.ppm);
        (ends.lo <= ends.hi).then_some(ends)
    }

    /// What the given intervals share at `h`, and `got`, where the two share no number.
    fn contradiction(&self, h: u64, got: Interval) -> Option<Disjoint>
        requires { h < 2 ^ 60 }
        ensures { result ≡ clash (interval_of self.now.ppm h self.now.keys) got }
    {
        let have = self.shared(h)?;
        have.meet(got).is_none().then_some(Disjoint { have, got })
    }
}
