//! A ballot's way to a group.

use crate::state::{Purpose, State};
use group_book::add;
use group_maker::{Made, make_group};
use slot_election::complete;
use tw_num::Moment;
use tw_types::{Ballot, Decision, Outputs, Reason, Report, UpdateId};

impl State {
    ghost use Rattle.std.specs.Prelude.{◌≡◌, ◌<◌, ◌≤◌, ◌+◌, ◌^◌, length, true, Some, None, IfSome, IfOk, IfErr};
    ghost use Rattle.std.specs.Option.{option_copied, option_and_then};
    ghost use Rattle.tw_machine.specs.Types.{Team as TeamSeen, Outputs as OutputsSeen, Ballot as BallotSeen};
    ghost use Rattle.tw_types.specs.BallotFits.{IsPromise, IsBallot};
    ghost use Rattle.tw_types.specs.Logs.{fit_tests_at};
    ghost use Rattle.tw_types.specs.Process.{Process};
    ghost use Rattle.tw_types.specs.Ranges.{IdFits, DecisionFits};
    ghost use Rattle.tw_types.specs.Refusals.{first_refusal};
    ghost use Rattle.tw_types.specs.Waiting.{payloads_of};
    ghost use Rattle.tw_machine.specs.Run.{Run};
    ghost use Rattle.tw_machine.specs.Grouping.{take_promise, best_held, make_group};
    ghost use Rattle.node_core.specs.InRange.{IsInRange, ReportsWithin};
    ghost use Rattle.node_core.specs.Outcomes.{made_if_complete, run_made, best_of, says_again};
    ghost use Rattle.node_core.specs.Moments.{MomentFits};
    ghost use Rattle.node_core.specs.Sends.{GivesMore};
    ghost use Rattle.node_core.specs.StandsFor.{StandsFor, RunStandsFor};

    /// Adds a promise that came in time to the ballot of its number. Answers why it isn't, if it isn't.
    #[inline(never)]
    pub fn take_promise(
        &mut self,
        number: u64,
        report: &Report,
        decision: Option<&Decision>,
    ) -> Option<Reason>
        requires fits { IsInRange self.old }
        requires promise { IsPromise self.old.team.n (record { number = number; report = report.now; decision = option_copied decision }) }
        ensures stands { (team : TeamSeen) (out : OutputsSeen) (r : Run) → RunStandsFor team self.old out r →
            RunStandsFor team self.new out (take_promise (record { number = number; report = report.now; decision = option_copied decision.entry }) r).run }
        ensures dropped { (team : TeamSeen) (out : OutputsSeen) (r : Run) → RunStandsFor team self.old out r →
            result ≡ (take_promise (record { number = number; report = report.now; decision = option_copied decision.entry }) r).dropped }
        ensures fits { IsInRange self.new }
        ensures team { self.new.team ≡ self.old.team }
    {
        let Some(ballot) = &mut self.ballot else {
            return Some(Reason::Old);
        };
        if add(
            &self.team,
            ballot,
            number,
            *report,
            decision.map(Decision::copy),
        ) {
            None
        } else {
            Some(Reason::Old)
        }
    }

    /// The group that a ballot makes at the reading `t` of team time, if it is complete and makes one, or the update without
    /// whose payload it makes none.
    fn made_of(&self, ballot: &Ballot, t: u64) -> Option<Result<Decision, UpdateId>>
        requires fits { IsInRange self.now }
        requires ballot { IsBallot self.now.team.n ballot.now }
        requires within { ReportsWithin self.now.identity.who self.now.oal.length ballot.now }
        requires reading { t < 2 ^ 60 }
        ensures exact { (p : Process) → StandsFor self.now p → result ≡ made_if_complete self.now.team t p ballot.now }
        ensures fits { IfSome result (λ made. IfOk made (DecisionFits self.now.team.n)) }
        ensures id { IfSome result (λ made. IfErr made (IdFits self.now.team.n)) }
        ensures list { IfSome result (λ made. IfOk made (λ d.
            first_refusal (fit_tests_at self.now.oal.length self.now.oal.passed (payloads_of self.now.store.waiting) d) ≡ None)) }
        ensures number { IfSome result (λ made. IfOk made (λ d. d.group ≡ ballot.now.number)) }
        ensures made { IfSome result (λ made. IfOk made (λ d. d.made ≡ t)) }
    {
        if !complete(&self.team, ballot, t) {
            return None;
        }
        match make_group(&self.team, ballot, &self.oal, &self.store, self.member(), t) {
            Made::Group(d) => Some(Ok(d)),
            Made::Missing(id) => Some(Err(id)),
            Made::TooFew | Made::NotConsistent | Made::Behind | Made::Spent => None,
        }
    }

    /// The same of the ballot that the process holds, if it holds one.
    fn made(&self, t: u64) -> Option<Result<Decision, UpdateId>>
        requires fits { IsInRange self.now }
        requires reading { t < 2 ^ 60 }
        ensures exact { (p : Process) → StandsFor self.now p → result ≡ option_and_then (made_if_complete self.now.team t p) self.now.ballot }
        ensures fits { IfSome result (λ made. IfOk made (DecisionFits self.now.team.n)) }
        ensures id { IfSome result (λ made. IfErr made (IdFits self.now.team.n)) }
        ensures list { IfSome result (λ made. IfOk made (λ d.
            first_refusal (fit_tests_at self.now.oal.length self.now.oal.passed (payloads_of self.now.store.waiting) d) ≡ None)) }
        ensures number { IfSome result (λ made. IfOk made (λ d. d.group ≤ self.now.vote.promised)) }
        ensures made { IfSome result (λ made. IfOk made (λ d. d.made ≡ t)) }
    {
        match &self.ballot {
            None => None,
            Some(ballot) => self.made_of(ballot, t),
        }
    }

    /// Holds the best decision of the ballot, of which this payload is missing, for the group that is to be made from it. Asks a
    /// process that has it. The ballot stays.
    fn hold_best(&mut self, now: &Moment, id: UpdateId, out: &mut Outputs)
        requires fits { IsInRange self.old }
        requires now { MomentFits now.now }
        requires id { IdFits self.old.team.n id }
        requires room { length out.old.sends + 1 ≤ 64 }
        ensures stands { (team : TeamSeen) (ballot : BallotSeen) (r : Run) → r.process.ballot ≡ Some ballot → RunStandsFor team self.old out.old r →
            RunStandsFor team self.new out.new (best_held now.now ballot id r) }
        ensures gives { GivesMore self.old.team.n 1 out.old out.new }
        ensures fits { IsInRange self.new }
        ensures team { self.new.team ≡ self.old.team }
    {
        if let Some((best, source)) = self.best() {
            self.hold_for(now, Purpose::ToGroup, &best, source, id, out);
        }
    }

    /// A copy of the ballot's best decision, and the process to ask for its payloads.
    fn best(&self) -> Option<(Decision, u8)>
        requires fits { IsInRange self.now }
        ensures exact { result ≡ option_and_then best_of self.now.ballot }
        ensures fits { IfSome result (λ best. DecisionFits self.now.team.n best.0) }
        ensures source { IfSome result (λ best. best.1 < self.now.team.n) }
    {
        let ballot = self.ballot.as_ref()?;
        let best = ballot.best.as_ref()?;
        Some((best.copy(), ballot.best_from))
    }

    /// Begins the group that is made of the ballot, and takes the ballot away. Where a payload is missing for that, holds the
    /// ballot's best decision.
    fn begin_or_hold(
        &mut self,
        now: &Moment,
        made: Result<Decision, UpdateId>,
        t: u64,
        out: &mut Outputs,
    )
        requires fits { IsInRange self.old }
        requires now { MomentFits now.now }
        requires decision { IfOk made (DecisionFits self.old.team.n) }
        requires number { IfOk made (λ d. d.group ≤ self.old.vote.promised) }
        requires list { IfOk made (λ d.
            first_refusal (fit_tests_at self.old.oal.length self.old.oal.passed (payloads_of self.old.store.waiting) d) ≡ None) }
        requires made { IfOk made (λ d. d.made ≡ t) }
        requires id { IfErr made (IdFits self.old.team.n) }
        requires reading { t < 2 ^ 60 }
        requires room { length out.old.sends + 14 ≤ 64 }
        ensures stands { (team : TeamSeen) (ballot : BallotSeen) (r : Run) → r.process.ballot ≡ Some ballot → RunStandsFor team self.old out.old r →
            RunStandsFor team self.new out.new (run_made team now.now t r ballot (Some made)) }
        // who makes a group says nothing again at once
        ensures again { says_again self.new (Some t) ≡ true → length out.new.sends ≤ length out.old.sends + 1 }
        ensures gives { GivesMore self.old.team.n 14 out.old out.new }
        ensures fits { IsInRange self.new }
        ensures team { self.new.team ≡ self.old.team }
    {
        match made {
            Ok(d) => {
                self.ballot = None;
                self.make_decision(now, d, t, out);
            }
            Err(id) => self.hold_best(now, id, out),
        }
    }

    /// Makes a group of the ballot, where it is complete and makes one. Where a payload is missing for that, the ballot's best
    /// decision is held, and the ballot stays.
    pub fn make_group(&mut self, now: &Moment, t: u64, out: &mut Outputs)
        requires fits { IsInRange self.old }
        requires now { MomentFits now.now }
        requires reading { t < 2 ^ 60 }
        requires room { length out.old.sends + 14 ≤ 64 }
        ensures stands { (team : TeamSeen) (r : Run) → RunStandsFor team self.old out.old r →
            RunStandsFor team self.new out.new (make_group team now.now t r) }
        // who makes a group says nothing again at once
        ensures again { says_again self.new (Some t) ≡ true → length out.new.sends ≤ length out.old.sends + 1 }
        ensures gives { GivesMore self.old.team.n 14 out.old out.new }
        ensures fits { IsInRange self.new }
        ensures team { self.new.team ≡ self.old.team }
    {
        if let Some(made) = self.made(t) {
            self.begin_or_hold(now, made, t, out);
        }
    }
}
