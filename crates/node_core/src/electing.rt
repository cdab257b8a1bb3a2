//! Elections: answering one, holding one, and the end of its ballot.

ghost use Rattle.std.specs.Prelude.{◌≡◌};
ghost use Rattle.std.specs.Option.{option_copied};
ghost use Rattle.tw_types.specs.Team.{IsSound};
ghost use Rattle.tw_types.specs.Ballots.{is_over};
ghost use Rattle.wheel.specs.Faults.{election_reason};

use crate::state::State;
use slot_election::{answer_slot, begin_slot};
use tw_num::Moment;
use tw_types::{Ballot, Body, Decision, Outputs, Reason, Team, Why};
use wheel::{ElectFault, slot_of};

/// Why an election isn't answered, as the reason of a dropped packet.
fn reason(fault: ElectFault) -> Reason
    ensures { result ≡ election_reason fault }
{
    match fault {
        ElectFault::Quarantine => Reason::Quarantine,
        ElectFault::OutOfWindow => Reason::OutOfWindow,
        ElectFault::Promised(number) => Reason::Promised(number),
        ElectFault::Unwilling => Reason::Unwilling,
    }
}

/// Whether nothing comes of a ballot any more: its owner promised another number, or is in its group already, or its slot is
/// over.
fn is_over(team: &Team, promised: u64, last: Option<&Decision>, t: u64, ballot: &Ballot) -> bool
    requires { IsSound team.now }
    ensures { result ≡ is_over team.now promised (option_copied last.entry) t ballot.now }
{
    let group = last.map_or(0, |last| last.group);
    promised != ballot.number
        || group == ballot.number
        || ballot.number.saturating_add(1) < slot_of(team, t)
}

impl State {
    ghost use Rattle.std.specs.Prelude.{◌≡◌, ◌<◌, ◌≤◌, ◌+◌, ◌^◌, true, length, Some, IfNone, IfSome, MatchOption};
    ghost use Rattle.tw_machine.specs.Types.{Team as TeamSeen, Outputs as OutputsSeen};
    ghost use Rattle.tw_types.specs.BallotFits.{IsBallot};
    ghost use Rattle.tw_types.specs.Ballots.{has_report_of};
    ghost use Rattle.tw_types.specs.Process.{Process};
    ghost use Rattle.tw_types.specs.Ranges.{IsPositive};
    ghost use Rattle.tw_types.specs.Refusals.{first_refusal};
    ghost use Rattle.tw_machine.specs.Run.{Run};
    ghost use Rattle.tw_machine.specs.Electing.{answer_tests, answer_election, drop_ballot, begin_election};
    ghost use Rattle.node_core.specs.InRange.{IsInRange, ReportsWithin};
    ghost use Rattle.node_core.specs.Outcomes.{HoldsElection, says_again};
    ghost use Rattle.node_core.specs.Moments.{MomentFits};
    ghost use Rattle.node_core.specs.Sends.{GivesMore};
    ghost use Rattle.node_core.specs.StandsFor.{StandsFor, RunStandsFor};

    /// Why the process doesn't promise the number that an election of process `from` asks for.
    fn refuse_election(
        &self,
        now: &Moment,
        from: u8,
        number: u64,
        why: Why,
        t: u64,
    ) -> Option<Reason>
        requires fits { IsInRange self.now }
        requires number { number < 2 ^ 60 }
        requires reading { t < 2 ^ 60 }
        ensures exact { (p : Process) → StandsFor self.now p → result ≡ first_refusal (answer_tests self.now.team now.now from number why t p) }
        // who promises a number promised less before
        ensures above { IfNone result (self.now.vote.promised < number) }
    {
        let report = self.report(t);
        let able = if self.belief.is_informed() {
            Some(&report)
        } else {
            None
        };
        answer_slot(
            &self.team,
            able,
            self.belief.last(),
            self.vote.promised,
            self.is_quarantined(now.h),
            from,
            number,
            why,
            t,
        )
        .err()
        .map(reason)
    }

    /// Answers the election of process `from` by a promise, if nothing is against it. Answers what is.
    #[inline(never)]
    pub fn answer_election(
        &mut self,
        now: &Moment,
        from: u8,
        number: u64,
        why: Why,
        t: u64,
        out: &mut Outputs,
    ) -> Option<Reason>
        requires fits { IsInRange self.old }
        requires now { MomentFits now.now }
        requires from { from < self.old.team.n }
        requires number { IsPositive number }
        requires reading { t < 2 ^ 60 }
        requires room { length out.old.sends + 1 ≤ 64 }
        ensures stands { (team : TeamSeen) (r : Run) → RunStandsFor team self.old out.old r →
            RunStandsFor team self.new out.new (answer_election team now.now from number why t r).run }
        ensures dropped { (team : TeamSeen) (r : Run) → RunStandsFor team self.old out.old r →
            result ≡ (answer_election team now.now from number why t r).dropped }
        ensures gives { GivesMore self.old.team.n 1 out.old out.new }
        ensures fits { IsInRange self.new }
        ensures team { self.new.team ≡ self.old.team }
    {
        if let Some(reason) = self.refuse_election(now, from, number, why, t) {
            return Some(reason);
        }
        let report = self.report(t);
        let decision = self.belief.last_copy();
        self.vote.promised = number;
        let promise = Body::Promise {
            number,
            report,
            decision,
        };
        self.send_to(now, from, &promise, out);
        None
    }

    /// Drops the ballot where nothing comes of it any more.
    pub fn drop_ballot(&mut self, t: u64)
        requires fits { IsInRange self.old }
        ensures stands { (team : TeamSeen) (out : OutputsSeen) (r : Run) → RunStandsFor team self.old out r →
            RunStandsFor team self.new out (drop_ballot team t r) }
        ensures fits { IsInRange self.new }
        ensures team { self.new.team ≡ self.old.team }
    {
        let promised = self.vote.promised;
        let last = self.belief.last();
        if let Some(ballot) = &self.ballot
            && is_over(&self.team, promised, last, t, ballot)
        {
            self.ballot = None;
        }
    }

    /// The election of the present slot that the process holds at its reading `t` of team time: the ballot that it begins, and why.
    /// None where it doesn't own the slot, or has no reason to.
    fn election(&self, now: &Moment, t: u64) -> Option<(Ballot, Why)>
        requires fits { IsInRange self.now }
        requires reading { t < 2 ^ 60 }
        ensures held { (team : TeamSeen) (r : Run) → self.now.team ≡ team → StandsFor self.now r.process →
            MatchOption result (begin_election team now.now t r ≡ r) (HoldsElection team now.now t r) }
        ensures fits { IfSome result (λ begun. IsBallot self.now.team.n begun.0) }
        ensures above { IfSome result (λ begun. self.now.vote.promised < begun.0.number) }
        ensures own { IfSome result (λ begun. has_report_of self.now.identity.who begun.0 ≡ true) }
        ensures within { IfSome result (λ begun. ReportsWithin self.now.identity.who self.now.oal.length begun.0) }
        // no wish is known yet
        ensures why { IfSome result (λ begun. begun.1 ≡ Why.Stuck) }
    {
        begin_slot(
            &self.team,
            &self.report(t),
            self.belief.last(),
            self.vote.promised,
            self.is_quarantined(now.h),
            false,
            t,
        )
    }

    /// Holds the election of the present slot, where the process owns it and has reason to.
    pub fn begin_election(&mut self, now: &Moment, t: u64, out: &mut Outputs)
        requires fits { IsInRange self.old }
        requires now { MomentFits now.now }
        requires reading { t < 2 ^ 60 }
        requires room { length out.old.sends + 14 ≤ 64 }
        ensures stands { (team : TeamSeen) (r : Run) → RunStandsFor team self.old out.old r →
            RunStandsFor team self.new out.new (begin_election team now.now t r) }
        // who begins a ballot says nothing again
        ensures again { says_again self.new (Some t) ≡ true → (self.new ≡ self.old) × (out.new ≡ out.old) }
        ensures gives { GivesMore self.old.team.n 14 out.old out.new }
        ensures fits { IsInRange self.new }
        ensures team { self.new.team ≡ self.old.team }
    {
        if let Some((ballot, why)) = self.election(now, t) {
            let own = ballot.number;
            self.vote.promised = own;
            self.ballot = Some(ballot);
            self.send_to_others(now, &Body::Election { number: own, why }, out);
        }
    }
}
