//! How a process sends.

use crate::state::State;
use tw_num::Moment;
use tw_types::{Body, Head, Outputs};

impl State {
    ghost use Rattle.std.specs.Prelude.{◌≡◌, ◌≢◌, ◌==◌, ◌<◌, ◌≤◌, ◌+◌, [], ◌∷◌, map, length, not, if◌then◌else◌};
    ghost use Rattle.std.specs.List.{AllByRecursion};
    ghost use Rattle.tw_types.specs.declared.team.Team.{Team as TeamSeen};
    ghost use Rattle.tw_types.specs.Process.{Timing as TimingSeen};
    ghost use Rattle.tw_types.specs.Ranges.{HeadFits};
    ghost use Rattle.tw_machine.specs.Run.{Run, with_sends};
    ghost use Rattle.tw_machine.specs.Sending.{head_to, datagram_to, sent_to, sent_to_others};
    ghost use Rattle.node_core.specs.Moments.{MomentFits};
    ghost use Rattle.node_core.specs.Sends.{IsSendable, IsSayable};
    ghost use Rattle.node_core.specs.StandsFor.{TimingStandsFor, identity_seen, RunStandsFor};

    /// The head of what the process sends to `to` now.
    fn head_to(&self, now: &Moment, to: u8) -> Head
        requires to { to < self.now.team.n }
        requires now { MomentFits now.now }
        ensures exact { (team : TeamSeen) (t : TimingSeen) → TimingStandsFor team self.now.timing t →
            result ≡ head_to now.now (identity_seen self.now.identity) t to }
        ensures fits { HeadFits result }
        ensures from { result.from ≡ self.now.identity.who }
        ensures incarnation { result.incarnation ≡ self.now.identity.incarnation }
    {
        Head {
            from: self.identity.who,
            to,
            incarnation: self.identity.incarnation,
            sent: now.h,
            interval: now.interval.filter(|interval| interval.hi < 1 << 61),
            echo: self.timing.heard(to),
        }
    }

    /// Sends a body to one process.
    pub fn send_to(&self, now: &Moment, to: u8, body: &Body, out: &mut Outputs)
        requires to { to < self.now.team.n }
        requires now { MomentFits now.now }
        requires room { length out.old.sends + 1 ≤ 64 }
        ensures stands { (team : TeamSeen) (r : Run) → RunStandsFor team self.now out.old r →
            RunStandsFor team self.now out.new (sent_to now.now body.now to r) }
        ensures fits { IsSayable self.now.team.n self.now.identity body.now →
            AllByRecursion (IsSendable self.now.team.n) out.old.sends → AllByRecursion (IsSendable self.now.team.n) out.new.sends }
        ensures few { length out.new.sends ≤ length out.old.sends + 1 }
        ensures passes { out.new.passes ≡ out.old.passes }
        ensures earlies { out.new.earlies ≡ out.old.earlies }
    {
        let head = self.head_to(now, to);
        out.sends.send(to, head, body);
    }

    /// Sends a body to one process, unless that is this process.
    fn send_to_other(&self, now: &Moment, to: u8, body: &Body, out: &mut Outputs)
        requires to { to < self.now.team.n }
        requires now { MomentFits now.now }
        requires room { to ≢ self.now.identity.who → length out.old.sends + 1 ≤ 64 }
        ensures stands { (team : TeamSeen) (r : Run) → RunStandsFor team self.now out.old r →
            RunStandsFor team self.now out.new (with_sends (map (datagram_to now.now r.process.identity r.process.timing body.now)
            (if not (to == r.process.identity.who) then to ∷ [] else [])) r) }
        ensures fits { IsSayable self.now.team.n self.now.identity body.now →
            AllByRecursion (IsSendable self.now.team.n) out.old.sends → AllByRecursion (IsSendable self.now.team.n) out.new.sends }
        ensures few { length out.new.sends ≤ length out.old.sends + 1 }
        ensures passes { out.new.passes ≡ out.old.passes }
        ensures earlies { out.new.earlies ≡ out.old.earlies }
        ensures same { to ≡ self.now.identity.who → out.new ≡ out.old }
    {
        if to != self.identity.who {
            self.send_to(now, to, body, out);
        }
    }

    /// Sends a body to each other process, in ascending order.
    pub fn send_to_others(&self, now: &Moment, body: &Body, out: &mut Outputs)
        requires now { MomentFits now.now }
        requires room { length out.old.sends + 14 ≤ 64 }
        ensures stands { (team : TeamSeen) (r : Run) → RunStandsFor team self.now out.old r →
            RunStandsFor team self.now out.new (sent_to_others team.n now.now body.now r) }
        ensures fits { IsSayable self.now.team.n self.now.identity body.now →
            AllByRecursion (IsSendable self.now.team.n) out.old.sends → AllByRecursion (IsSendable self.now.team.n) out.new.sends }
        ensures few { length out.new.sends ≤ length out.old.sends + 14 }
        ensures passes { out.new.passes ≡ out.old.passes }
        ensures earlies { out.new.earlies ≡ out.old.earlies }
    {
        for to in 0..self.team.n {
            self.send_to_other(now, to, body, out);
        }
    }
}
