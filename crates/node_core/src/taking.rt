//! Taking decisions, and the flag that they raise.

ghost use Rattle.std.specs.Prelude.{◌≡◌, ◌<◌, ◌^◌};
ghost use Rattle.tw_types.specs.Team.{IsSound};
ghost use Rattle.tw_types.specs.Flag.{counts, is_supported};
ghost use Rattle.decider.specs.Checks.{take_reason};

use crate::state::{Purpose, State};
use decider::{TakeFault, first_check};
use oal::ExtendFault;
use tw_num::Moment;
use tw_types::{Decision, Outputs, Reason, Support, Team, maj};

/// Whether a support counts at team time `t`, in microseconds: for the length of a lease.
fn counts(team: &Team, t: u64, support: Option<Support>) -> bool
    ensures { result ≡ counts team.now t support }
{
    support.is_some_and(|support| t <= support.at.saturating_add(team.lease))
}

/// Whether a majority of the team has a support that counts at team time `t`, in microseconds.
fn is_supported(team: &Team, t: u64, d: &Decision) -> bool
    requires { IsSound team.now }
    ensures { result ≡ is_supported team.now t d.now }
{
    let count = d
        .seats
        .iter()
        .filter(|seat| counts(team, t, seat.support))
        .count();
    usize::from(maj(team.n)) <= count
}

/// Why a decision isn't taken, as the reason of a dropped packet.
fn reason(fault: TakeFault) -> Reason
    ensures { result ≡ take_reason fault }
{
    match fault {
        TakeFault::Old => Reason::Old,
        TakeFault::NotMember => Reason::NotMember,
        TakeFault::Promised(number) => Reason::Promised(number),
    }
}

impl State {
    ghost use Rattle.std.specs.Prelude.{◌≡◌, ◌≤◌, ◌+◌, length, IfNone};
    ghost use Rattle.tw_types.specs.declared.team.Team.{Team as TeamSeen};
    ghost use Rattle.tw_types.specs.Flag.{is_up};
    ghost use Rattle.tw_types.specs.Process.{Process};
    ghost use Rattle.tw_types.specs.Ranges.{DecisionFits};
    ghost use Rattle.tw_types.specs.Refusals.{first_refusal};
    ghost use Rattle.tw_machine.specs.Run.{Run};
    ghost use Rattle.tw_machine.specs.Entering.{enter_decision};
    ghost use Rattle.tw_machine.specs.Taking.{decision_tests, take_decision};
    ghost use Rattle.node_core.specs.InRange.{IsInRange};
    ghost use Rattle.node_core.specs.Moments.{MomentFits};
    ghost use Rattle.node_core.specs.Sends.{GivesMore};
    ghost use Rattle.node_core.specs.StandsFor.{StandsFor, RunStandsFor, belief_seen, vote_seen};

    /// Whether the process may believe its group at its reading of team time: the group started, and a majority supports it.
    #[tactic(auto, unfolding(tw_types::specs::Flag::is_up))]
    pub fn is_up(&self, reading: Option<u64>) -> bool
        ensures { result ≡ is_up self.now.team (vote_seen self.now.vote) (belief_seen self.now.belief) reading }
    {
        match (self.belief.last(), reading) {
            (Some(last), Some(t)) => last.start <= t && is_supported(&self.team, t, last),
            _ => false,
        }
    }

    /// Why the process doesn't want a decision, whatever its list. A blank process follows nothing yet.
    fn refuse_decision(&self, d: &Decision) -> Option<Reason>
        ensures exact { (p : Process) → StandsFor self.now p → result ≡ first_refusal (decision_tests p d.now) }
        // what is taken is of the promised group
        ensures promised { IfNone result (d.now.group ≡ self.now.vote.promised) }
    {
        let informed = self.belief.is_informed();
        let first = first_check(
            self.belief.view(),
            informed,
            self.member(),
            self.vote.promised,
            d,
        );
        match first {
            Err(fault) => Some(reason(fault)),
            Ok(_) if !informed => Some(Reason::NotMember),
            Ok(_) => None,
        }
    }

    /// Takes a decision of the promised group where it goes on the list. Holds one that lacks a payload, and asks its maker for
    /// that. Answers why it isn't taken, if it isn't.
    pub fn enter_decision(
        &mut self,
        now: &Moment,
        d: &Decision,
        out: &mut Outputs,
    ) -> Option<Reason>
        requires fits { IsInRange self.old }
        requires now { MomentFits now.now }
        requires decision { DecisionFits self.old.team.n d.now }
        requires promised { d.now.group ≤ self.old.vote.promised }
        requires room { length out.old.sends + 1 ≤ 64 }
        ensures stands { (team : TeamSeen) (r : Run) → RunStandsFor team self.old out.old r →
            RunStandsFor team self.new out.new (enter_decision now.now d.now r).run }
        ensures dropped { (team : TeamSeen) (r : Run) → RunStandsFor team self.old out.old r →
            result ≡ (enter_decision now.now d.now r).dropped }
        ensures gives { GivesMore self.old.team.n 1 out.old out.new }
        ensures fits { IsInRange self.new }
        ensures team { self.new.team ≡ self.old.team }
    {
        match self.fits_list(d) {
            Ok(()) => {
                self.enter(d);
                None
            }
            Err(ExtendFault::Missing(id)) => {
                self.hold_for(now, Purpose::ToTake, d, d.maker, id, out);
                Some(Reason::Missing(id))
            }
            Err(ExtendFault::Gap) => Some(Reason::Gap),
            Err(ExtendFault::Behind) => Some(Reason::Behind),
        }
    }

    /// Takes a decision that came in time, if nothing is against it. Answers what is.
    #[inline(never)]
    pub fn take_decision(&mut self, now: &Moment, d: &Decision, out: &mut Outputs) -> Option<Reason>
        requires fits { IsInRange self.old }
        requires now { MomentFits now.now }
        requires decision { DecisionFits self.old.team.n d.now }
        requires room { length out.old.sends + 1 ≤ 64 }
        ensures stands { (team : TeamSeen) (r : Run) → RunStandsFor team self.old out.old r →
            RunStandsFor team self.new out.new (take_decision now.now d.now r).run }
        ensures dropped { (team : TeamSeen) (r : Run) → RunStandsFor team self.old out.old r →
            result ≡ (take_decision now.now d.now r).dropped }
        ensures gives { GivesMore self.old.team.n 1 out.old out.new }
        ensures fits { IsInRange self.new }
        ensures team { self.new.team ≡ self.old.team }
    {
        if let Some(reason) = self.refuse_decision(d) {
            return Some(reason);
        }
        self.enter_decision(now, d, out)
    }
}
