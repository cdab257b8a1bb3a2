//! What a process does of its own accord.

use crate::state::State;
use tw_num::Moment;
use tw_types::Outputs;

impl State {
    ghost use Rattle.std.specs.Prelude.{◌≡◌, ◌<◌, ◌≤◌, ◌+◌, ◌^◌, [], length, true, Some};
    ghost use Rattle.tw_types.specs.declared.team.Team.{Team as TeamSeen};
    ghost use Rattle.tw_machine.specs.Run.{Run};
    ghost use Rattle.tw_machine.specs.Duties.{timed_duties, duties};
    ghost use Rattle.node_core.specs.InRange.{IsInRange};
    ghost use Rattle.node_core.specs.Moments.{MomentFits};
    ghost use Rattle.node_core.specs.Outcomes.{says_again};
    ghost use Rattle.node_core.specs.Sends.{SendsMore};
    ghost use Rattle.node_core.specs.StandsFor.{RunStandsFor};

    /// Does the duties of a process that has the reading `t` of team time, in their order. One whose turn it is holds no ballot
    /// any more, so that it makes one decision at most.
    #[tactic(auto, unfolding(tw_machine::specs::Duties::timed_duties))]
    #[inline(never)]
    fn timed_duties(&mut self, now: &Moment, t: u64, out: &mut Outputs)
        requires fits { IsInRange self.old }
        requires now { MomentFits now.now }
        requires reading { t < 2 ^ 60 }
        requires room { length out.old.sends + 28 ≤ 64 }
        requires passes { out.old.passes ≡ [] }
        requires earlies { out.old.earlies ≡ [] }
        ensures stands { (team : TeamSeen) (r : Run) → RunStandsFor team self.old out.old r →
            RunStandsFor team self.new out.new (timed_duties team now.now t r) }
        // who makes a decision or begins a ballot says nothing again at once
        ensures again { says_again self.new (Some t) ≡ true → length out.new.sends ≤ length out.old.sends + 1 }
        ensures gives { SendsMore self.old.team.n 28 out.old out.new }
        ensures fits { IsInRange self.new }
        ensures team { self.new.team ≡ self.old.team }
    {
        self.drop_ballot(t);
        if self.has_turn(t) {
            self.take_turn(now, t, out);
        } else {
            self.make_group(now, t, out);
        }
        self.begin_election(now, t, out);
        self.deliver(t, out);
    }

    /// Does the duties, in their order. They send at most 43 datagrams: a decision or one that is said again goes out, an election where
    /// nothing is said again, a question for an update, and signs of life.
    #[tactic(auto, unfolding(tw_machine::specs::Duties::duties))]
    pub fn duties(&mut self, now: &Moment, out: &mut Outputs)
        requires fits { IsInRange self.old }
        requires now { MomentFits now.now }
        requires room { length out.old.sends + 43 ≤ 64 }
        requires passes { out.old.passes ≡ [] }
        requires earlies { out.old.earlies ≡ [] }
        ensures stands { (team : TeamSeen) (r : Run) → RunStandsFor team self.old out.old r →
            RunStandsFor team self.new out.new (duties team now.now r) }
        ensures gives { SendsMore self.old.team.n 43 out.old out.new }
        ensures fits { IsInRange self.new }
        ensures team { self.new.team ≡ self.old.team }
    {
        if let Some(t) = now.reading {
            self.timed_duties(now, t, out);
        }
        self.give_beat(now, out);
    }
}
