//! Decisions that a process makes.

use crate::state::State;
use decider::{due, finish, next_draft};
use order_rules::append;
use tw_num::Moment;
use tw_types::{Body, Decision, Outputs};

impl State {
    ghost use Rattle.std.specs.Prelude.{◌≡◌, ◌<◌, ◌≤◌, ◌+◌, ◌^◌, length, true, false, Option, Some, None, List};
    ghost use Rattle.tw_machine.specs.Types.{Team as TeamSeen, Report, Kept, Decision as DecisionSeen};
    ghost use Rattle.tw_types.specs.Beliefs.{last_of};
    ghost use Rattle.tw_types.specs.Flag.{is_up};
    ghost use Rattle.tw_types.specs.Logs.{fit_tests_at};
    ghost use Rattle.tw_types.specs.Process.{Process};
    ghost use Rattle.tw_types.specs.Turns.{is_turn, next_decision, DraftFits};
    ghost use Rattle.tw_types.specs.Ranges.{DecisionFits};
    ghost use Rattle.tw_types.specs.Refusals.{first_refusal};
    ghost use Rattle.tw_types.specs.Waiting.{payloads_of};
    ghost use Rattle.tw_machine.specs.Run.{Run};
    ghost use Rattle.tw_machine.specs.Standing.{member_of};
    ghost use Rattle.tw_machine.specs.Deciding.{entries_to_add, decision_made, take_turn};
    ghost use Rattle.node_core.specs.InRange.{IsInRange};
    ghost use Rattle.node_core.specs.Moments.{MomentFits};
    ghost use Rattle.node_core.specs.Outcomes.{IsDraft, says_again};
    ghost use Rattle.node_core.specs.Sends.{GivesMore};
    ghost use Rattle.node_core.specs.StandsFor.{StandsFor, RunStandsFor, identity_seen, vote_seen, belief_seen};

    /// Makes a decision at the reading `t` of team time: the process takes it, supports it, and sends it to all others.
    pub fn make_decision(&mut self, now: &Moment, d: Decision, t: u64, out: &mut Outputs)
        requires fits { IsInRange self.old }
        requires now { MomentFits now.now }
        requires decision { DecisionFits self.old.team.n d }
        requires promised { d.group ≤ self.old.vote.promised }
        requires list { first_refusal (fit_tests_at self.old.oal.length self.old.oal.passed (payloads_of self.old.store.waiting) d) ≡ None }
        requires reading { t < 2 ^ 60 }
        requires room { length out.old.sends + 14 ≤ 64 }
        ensures stands { (team : TeamSeen) (before : Option DecisionSeen) (reports : List Report) (appended : List Kept) (r : Run) → RunStandsFor team self.old out.old r →
            RunStandsFor team self.new out.new (decision_made team now.now (record { decision = d; before = before; reports = reports; appended = appended }) t r) }
        ensures gives { GivesMore self.old.team.n 14 out.old out.new }
        ensures fits { IsInRange self.new }
        ensures team { self.new.team ≡ self.old.team }
        ensures last { last_of (belief_seen self.new.belief) ≡ Some d }
    {
        self.vote.support = Some(t);
        self.enter(&d);
        out.made = Some(d.copy());
        self.send_to_others(now, &Body::Decision(d), out);
    }

    /// Whether the group's next decision is due to this process at its reading `t` of team time.
    pub fn has_turn(&self, t: u64) -> bool
        requires { t < 2 ^ 60 }
        ensures { result ≡ is_turn self.now.team (member_of (identity_seen self.now.identity)) (last_of (belief_seen self.now.belief)) self.now.vote.promised t }
    {
        due(
            &self.team,
            self.member(),
            self.belief.last(),
            self.vote.promised,
            t,
        )
    }

    /// The draft of the decision after the last one, with the entries that this process adds at its reading `t`: none where it
    /// isn't up by the last one.
    fn draft(&self, last: &Decision, t: u64) -> Decision
        requires fits { IsInRange self.now }
        requires reading { t < 2 ^ 60 }
        requires last { last_of (belief_seen self.now.belief) ≡ Some last.now }
        requires due { is_turn self.now.team (member_of (identity_seen self.now.identity)) (Some last.now) self.now.vote.promised t ≡ true }
        ensures exact { IsDraft self.now.team (is_up self.now.team (vote_seen self.now.vote) (belief_seen self.now.belief) (Some t)) t self.now.oal.passed
            self.now.store.waiting.pending last.now self.now.identity.who result }
        ensures fits { DraftFits self.now.team.n result }
    {
        let mut draft = next_draft(last, t, self.identity.who);
        if self.is_up(Some(t)) {
            let passed = self.oal.passed();
            append(&self.team, &self.store, &mut draft, passed, t);
        }
        draft
    }

    /// The decision after the last one, which this process makes at its reading `t`. It goes on the list.
    fn next_decision(&self, last: &Decision, t: u64) -> Decision
        requires fits { IsInRange self.now }
        requires reading { t < 2 ^ 60 }
        requires last { last_of (belief_seen self.now.belief) ≡ Some last.now }
        requires due { is_turn self.now.team (member_of (identity_seen self.now.identity)) (Some last.now) self.now.vote.promised t ≡ true }
        ensures exact { (p : Process) → StandsFor self.now p →
            result ≡ next_decision (entries_to_add self.now.team t last.now p) last.now t self.now.identity.who }
        ensures fits { DecisionFits self.now.team.n result }
        ensures list { first_refusal (fit_tests_at self.now.oal.length self.now.oal.passed (payloads_of self.now.store.waiting) result) ≡ None }
        ensures group { result.group ≡ last.now.group }
        ensures made { result.made ≡ t }
    {
        // the list is no further ahead of what is passed than it may be
        let ahead = self.oal.length() - self.oal.passed();
        prove!(ahead <= 64);
        finish(self.draft(last, t))
    }

    /// Makes the group's next decision, which is due to this process.
    #[inline(never)]
    pub fn take_turn(&mut self, now: &Moment, t: u64, out: &mut Outputs)
        requires fits { IsInRange self.old }
        requires now { MomentFits now.now }
        requires reading { t < 2 ^ 60 }
        requires due { is_turn self.old.team (member_of (identity_seen self.old.identity)) (last_of (belief_seen self.old.belief)) self.old.vote.promised t ≡ true }
        requires room { length out.old.sends + 14 ≤ 64 }
        ensures stands { (team : TeamSeen) (r : Run) → RunStandsFor team self.old out.old r →
            RunStandsFor team self.new out.new (take_turn team now.now t r) }
        // what was made just now isn't said again
        ensures again { says_again self.new (Some t) ≡ false }
        ensures gives { GivesMore self.old.team.n 14 out.old out.new }
        ensures fits { IsInRange self.new }
        ensures team { self.new.team ≡ self.old.team }
    {
        if let Some(last) = self.belief.last() {
            let next = self.next_decision(last, t);
            self.make_decision(now, next, t, out);
        }
    }
}
