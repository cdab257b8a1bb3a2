//! What a process knows of time.

ghost use Rattle.std.specs.Prelude.{◌≡◌, ◌<◌, ◌≤◌, ◌^◌, true, IfSome};
ghost use Rattle.std.specs.Option.{option_map};
ghost use Rattle.tw_num.specs.Clock.{delayed};
ghost use Rattle.tw_types.specs.Ranges.{IntervalFits};
ghost use Rattle.tw_machine.specs.Hearing.{told};
ghost use Rattle.node_core.specs.Echoes.{are_in_range};
ghost use Rattle.node_core.specs.Reasons.{reason_of};

use clock_sync::TeamClock;
use late_detector::echo_bound;
use tw_num::{Disjoint, Interval, Moment};
use tw_types::{Echo, Head, Reason, Team};

/// What a process knows of time: its clock, and of each process the greatest stamp that it heard, with its own reading then.
#[derive(Clone, Copy)]
pub struct Timing {
    clock: TeamClock,
    heard: [Option<Echo>; 15],
    ghost range: { are_in_range heard ≡ true },
}

impl Timing {
    ghost use Rattle.std.specs.Prelude.{◌≡◌, ℕ, ◌<◌, ◌≤◌, ◌^◌, Some, IfSome};
    ghost use Rattle.tw_types.specs.declared.team.Team.{Team};
    ghost use Rattle.tw_types.specs.Process.{Timing as Known};
    ghost use Rattle.tw_types.specs.Ranges.{EchoFits, IntervalFits};
    ghost use Rattle.tw_num.specs.Clock.{IsNotBefore, fresh, reading_at, moment_at};
    ghost use Rattle.tw_machine.specs.Hearing.{noted, told, given, is_refused, read};
    ghost use Rattle.node_core.specs.Moments.{MomentFits};
    ghost use Rattle.node_core.specs.StandsFor.{TimingStandsFor, nothing_heard};

    /// Nothing is known of time.
    pub fn new(team: &Team) -> Timing
        requires drift { team.now.ppm ≤ 1000 }
        requires eps { team.now.eps < 2 ^ 60 }
        ensures { TimingStandsFor team.now result nothing_heard }
    {
        Timing {
            clock: TeamClock::new(team.ppm, team.eps),
            heard: [None; 15],
        }
    }

    /// Notes a stamp of the process `from` and the reading when it was heard, unless a greater stamp was heard from it before.
    pub fn note(&mut self, from: u8, stamp: Echo)
        requires from { from < 15 }
        requires stamp { EchoFits stamp }
        ensures { (team : Team) (t : Known) → TimingStandsFor team self.old t → TimingStandsFor team self.new (noted from stamp t) }
    {
        let heard = &mut self.heard[usize::from(from)];
        if heard.is_none_or(|before| before.a <= stamp.a) {
            *heard = Some(stamp);
        }
    }

    /// Gives the clock an interval that holds team time at `h`, and tells whether it is refused.
    pub fn refer(&mut self, h: u64, lo: u64, hi: u64) -> Option<Reason>
        requires reading { h < 2 ^ 60 }
        requires ordered { lo ≤ hi }
        requires range { hi < 2 ^ 62 }
        ensures stands { (team : Team) (t : Known) → TimingStandsFor team self.old t → IsNotBefore h t.clock →
            TimingStandsFor team self.new (given team.ppm h (Some (record { lo = lo; hi = hi })) t) }
        ensures refused { (team : Team) (t : Known) → TimingStandsFor team self.old t → IsNotBefore h t.clock →
            result ≡ is_refused team.ppm h (Some (record { lo = lo; hi = hi })) t }
    {
        reason(self.clock.reference(h, lo, hi))
    }

    /// Gives the clock what a datagram with this head tells of team time, where it tells something, and tells whether that is
    /// refused. The datagram is received at `h`.
    pub fn hear(&mut self, team: &Team, h: u64, head: &Head) -> Option<Reason>
        requires drift { team.now.ppm ≤ 1000 }
        requires reading { h < 2 ^ 60 }
        requires sent { head.now.sent < 2 ^ 60 }
        requires interval { IfSome head.now.interval IntervalFits }
        ensures stands { (t : Known) → TimingStandsFor team.now self.old t → IsNotBefore h t.clock →
            TimingStandsFor team.now self.new (given team.now.ppm h (told team.now.ppm h head.now) t) }
        ensures refused { (t : Known) → TimingStandsFor team.now self.old t → IsNotBefore h t.clock →
            result ≡ is_refused team.now.ppm h (told team.now.ppm h head.now) t }
    {
        let (interval, bound) = told(team.ppm, h, head)?;
        reason(self.clock.hear(h, interval, bound))
    }

    /// Reads the clock at `h`.
    pub fn read(&mut self, h: u64) -> Option<u64>
        requires { h < 2 ^ 60 }
        ensures stands { (team : Team) (t : Known) → TimingStandsFor team self.old t → IsNotBefore h t.clock →
            TimingStandsFor team self.new (read team h t) }
        ensures exact { (team : Team) (t : Known) → TimingStandsFor team self.old t → IsNotBefore h t.clock →
            result ≡ reading_at team.ppm team.eps h t.clock }
    {
        self.clock.read(h)
    }

    /// Reads the clock at `h`, and tells what it tells then.
    pub fn moment(&mut self, h: u64) -> Moment
        requires { h < 2 ^ 60 }
        ensures stands { (team : Team) (t : Known) → TimingStandsFor team self.old t → IsNotBefore h t.clock →
            TimingStandsFor team self.new (read team h t) }
        ensures exact { (team : Team) (t : Known) → TimingStandsFor team self.old t → IsNotBefore h t.clock →
            result ≡ moment_at team.ppm team.eps h t.clock }
        ensures fits { MomentFits result }
    {
        let interval = self.clock.interval(h);
        let reading = self.clock.read(h);
        Moment {
            h,
            reading,
            interval,
        }
    }

    /// What was last heard of a process.
    pub fn heard(&self, from: u8) -> Option<Echo>
        requires { from < 15 }
        ensures exact { (team : Team) (t : Known) → TimingStandsFor team self.now t → result ≡ t.heard from }
        ensures fits { IfSome result EchoFits }
    {
        self.heard[usize::from(from)]
    }
}

/// What a datagram with this head tells of team time, where it is received at `h`: the interval that it was sent with, and
/// the most that it was on its way.
fn told(ppm: u64, h: u64, head: &Head) -> Option<(Interval, u64)>
    requires drift { ppm ≤ 1000 }
    requires reading { h < 2 ^ 60 }
    requires sent { head.now.sent < 2 ^ 60 }
    requires interval { IfSome head.now.interval IntervalFits }
    ensures told { told ppm h head.now ≡ option_map (λ p. delayed p.0 p.1) result }
    ensures ordered { IfSome result (λ p. p.0.lo ≤ p.0.hi) }
    ensures range { IfSome result (λ p. p.0.hi < 2 ^ 61) }
    ensures bound { IfSome result (λ p. p.1 < 2 ^ 61) }
{
    let bound = echo_bound(head.echo?, head.sent, h, ppm)?;
    Some((head.interval?, bound))
}

/// Why an event is dropped whose interval is refused.
fn reason(given: Result<(), Disjoint>) -> Option<Reason>
    ensures { result ≡ reason_of given }
{
    given.err().map(|_| Reason::Disjoint)
}
