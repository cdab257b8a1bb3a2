//! A team and its faults. Nothing else may say which numbers a team has.

ghost use Rattle.std.specs.Prelude.{◌≡◌, ◌+◌, ◌/◌};

/// A fixed team of processes and its times, in microseconds of team time where nothing else is said. The names follow
/// Mishra, Fetzer and Cristian's Timewheel and Cristian and Fetzer's timed asynchronous model.
#[derive(Clone, Copy, Debug)]
pub struct Team {
    /// How many processes there are, 3 to 15. They are named 0 to `n - 1`.
    pub n: u8,
    /// The number of the team's line: a team that starts anew with lost memory takes another one.
    pub line: u32,
    /// The bound on a hardware clock's drift, in parts per million, at most 1000.
    pub ppm: u64,
    /// How far a synchronised reading may be from team time. Greater than 0.
    pub eps: u64,
    /// The time-out of a timely datagram. Greater than 0.
    pub delta: u64,
    /// The beat, in ticks of the own hardware clock. Greater than 0.
    pub pace: u64,
    /// The wait between two decisions. Greater than 0.
    pub decide: u64,
    /// The wait before a decider is suspected, above `decide + delta`.
    pub ring: u64,
    /// The length of a slot, above `4 * eps`.
    pub slot: u64,
    /// How long a support counts, above `n * (decide + delta)`.
    pub lease: u64,
    /// How long a restarted process promises nothing, in ticks of its own hardware clock: as long as any support that it
    /// gave before may count, and the slots of the numbers that it may have promised.
    pub quarantine: u64,
    /// The wait before a timed update is ordered.
    pub theta: u64,
}

/// Why a team can't be used.
#[derive(Clone, Copy)]
pub enum TeamFault {
    /// `n` is not in 3 to 15.
    Size,
    /// `ppm` is above 1000.
    Drift,
    /// `eps` is 0.
    Eps,
    /// `slot` is not above `4 * eps`.
    Slot,
    /// `delta`, `pace` or `decide` is 0, or `ring` is not above `decide + delta`.
    Pace,
    /// `lease` is not above `n * (decide + delta)`.
    Lease,
    /// `quarantine * 1000000` is below `(1000000 + ppm) * (lease + (n + 4) * slot + 4 * eps + 2) + 1000000`.
    Quarantine,
    /// One of the times is 2^40 or more.
    Range,
}

impl Team {
    ghost use Rattle.std.specs.Prelude.{◌≡◌, ◌↔◌, ◌^◌, None, Some, IsOk, MatchResult, nat_le};
    ghost use Rattle.std.specs.List.{list_any};
    ghost use Rattle.tw_types.specs.Team.{fault_of, times_of, IsSound};

    /// A sound team of three processes with exact clocks, for examples.
    pub const OF_THREE: Team = Team {
        n: 3,
        line: 7,
        ppm: 0,
        eps: 1000,
        delta: 10_000,
        pace: 20_000,
        decide: 10_000,
        ring: 50_000,
        slot: 100_000,
        lease: 400_000,
        quarantine: 1_104_003,
        theta: 30_000,
    };

    /// Whether the team can be used. An `Err` names the first fault, in the order of `TeamFault`.
    pub fn check(&self) -> Result<(), TeamFault>
        ensures first { MatchResult result (λ _. fault_of self.now ≡ None) (λ fault. fault_of self.now ≡ Some fault) }
        ensures sound { IsOk result ↔ IsSound self.now }
    {
        let (n, ppm) = (u128::from(self.n), u128::from(self.ppm));
        let (eps, slot) = (u128::from(self.eps), u128::from(self.slot));
        let turn = u128::from(self.decide) + u128::from(self.delta);
        let (lease, quarantine) = (u128::from(self.lease), u128::from(self.quarantine));
        if self.n < 3 || 15 < self.n {
            return Err(TeamFault::Size);
        }
        if 1000 < self.ppm {
            return Err(TeamFault::Drift);
        }
        if self.eps == 0 {
            return Err(TeamFault::Eps);
        }
        if slot <= 4 * eps {
            return Err(TeamFault::Slot);
        }
        if self.delta == 0 || self.pace == 0 || self.decide == 0 || u128::from(self.ring) <= turn {
            return Err(TeamFault::Pace);
        }
        if lease <= n * turn {
            return Err(TeamFault::Lease);
        }
        let wait = lease + (n + 4) * slot + 4 * eps + 2;
        if quarantine * 1_000_000 < (1_000_000 + ppm) * wait + 1_000_000 {
            return Err(TeamFault::Quarantine);
        }
        if self.is_out_of_range() {
            return Err(TeamFault::Range);
        }
        Ok(())
    }

    fn is_out_of_range(&self) -> bool
        ensures { result ≡ list_any (λ x. nat_le (2 ^ 40) x) (times_of self.now) }
    {
        [
            self.eps,
            self.delta,
            self.pace,
            self.decide,
            self.ring,
            self.slot,
            self.lease,
            self.quarantine,
            self.theta,
        ]
        .iter()
        .any(|time| *time >= 1 << 40)
    }
}

/// The least count of members that is more than half of `n`.
pub fn maj(n: u8) -> u8
    ensures { result ≡ n / 2 + 1 }
{
    1 + n / 2
}
