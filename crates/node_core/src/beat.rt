//! A process's signs of life.

use crate::state::State;
use tw_num::Moment;
use tw_types::{Body, Decision, Outputs};

/// When a process last gave a sign of life, by its own clock.
#[derive(Clone, Copy)]
pub struct Beat {
    pub last: Option<u64>,
}

impl Beat {
    ghost use Rattle.std.specs.Prelude.{◌≡◌};
    ghost use Rattle.tw_machine.specs.Beating.{is_due};
    ghost use Rattle.node_core.specs.StandsFor.{beat_seen};

    /// Whether a sign of life is due at `h`: the first at once, each further one `pace` ticks after the one before.
    fn is_due(&self, pace: u64, h: u64) -> bool
        ensures { result ≡ is_due pace h (beat_seen self.now) }
    {
        match self.last {
            None => true,
            Some(last) => last.checked_add(pace).is_some_and(|due| due <= h),
        }
    }
}

impl State {
    ghost use Rattle.std.specs.Prelude.{◌≡◌, ◌<◌, ◌≤◌, ◌+◌, ◌^◌, length, Some, None, IfSome};
    ghost use Rattle.tw_types.specs.declared.datagram.Body.TheVariants.{Sync};
    ghost use Rattle.tw_types.specs.declared.team.Team.{Team as TeamSeen};
    ghost use Rattle.tw_machine.specs.Run.{Run};
    ghost use Rattle.tw_machine.specs.Sending.{sent_to_others};
    ghost use Rattle.tw_machine.specs.Beating.{is_repeated, repeat_decision, ask_again, give_beat};
    ghost use Rattle.node_core.specs.InRange.{IsInRange};
    ghost use Rattle.node_core.specs.Moments.{MomentFits};
    ghost use Rattle.node_core.specs.Sends.{GivesMore};
    ghost use Rattle.tw_types.specs.Process.{Process};
    ghost use Rattle.tw_types.specs.Beliefs.{last_of};
    ghost use Rattle.node_core.specs.Outcomes.{says_again, said_again};
    ghost use Rattle.node_core.specs.StandsFor.{StandsFor, RunStandsFor, belief_seen};

    /// Whether the last decision is said again: the process made it itself, so long ago, and promised no other group.
    fn is_repeated(&self, last: &Decision, reading: Option<u64>) -> bool
        requires { IfSome reading (λ t. t < 2 ^ 60) }
        ensures exact { (p : Process) → StandsFor self.now p → result ≡ is_repeated self.now.team p last.now reading }
        ensures here { last_of (belief_seen self.now.belief) ≡ Some last.now → result ≡ says_again self.now reading }
    {
        match reading {
            None => false,
            Some(t) => {
                last.maker == self.identity.who
                    && last.group == self.vote.promised
                    && last.made.saturating_add(self.team.decide) <= t
            }
        }
    }

    /// Sends the last decision again to all others, where there is need. Like all that builds a body or a decision and isn't
    /// done at each event, it isn't inlined: a function pays at entry for the room of all that it may build.
    #[inline(never)]
    fn repeat_decision(&self, now: &Moment, out: &mut Outputs)
        requires fits { IsInRange self.now }
        requires now { MomentFits now.now }
        requires room { length out.old.sends + said_again self.now now.now.reading ≤ 64 }
        ensures stands { (team : TeamSeen) (r : Run) → RunStandsFor team self.now out.old r →
            RunStandsFor team self.now out.new (repeat_decision team now.now r) }
        ensures gives { GivesMore self.now.team.n (said_again self.now now.now.reading) out.old out.new }
    {
        if let Some(last) = self.belief.last() {
            if self.is_repeated(last, now.reading) {
                self.send_to_others(now, &Body::Decision(last.copy()), out);
            }
        }
    }

    /// Gives a sign of life to each other process.
    #[inline(never)]
    fn give_signs(&self, now: &Moment, out: &mut Outputs)
        requires fits { IsInRange self.now }
        requires now { MomentFits now.now }
        requires room { length out.old.sends + 14 ≤ 64 }
        ensures stands { (team : TeamSeen) (r : Run) → RunStandsFor team self.now out.old r →
            RunStandsFor team self.now out.new (sent_to_others team.n now.now (Sync None) r) }
        ensures gives { GivesMore self.now.team.n 14 out.old out.new }
    {
        let sign = Body::Sync { ready: None };
        self.send_to_others(now, &sign, out);
    }

    /// Asks again for the first update that a held decision lacks.
    fn ask_again(&self, now: &Moment, out: &mut Outputs)
        requires fits { IsInRange self.now }
        requires now { MomentFits now.now }
        requires room { length out.old.sends + 1 ≤ 64 }
        ensures stands { (team : TeamSeen) (r : Run) → RunStandsFor team self.now out.old r →
            RunStandsFor team self.now out.new (ask_again now.now r) }
        ensures gives { GivesMore self.now.team.n 1 out.old out.new }
    {
        if let Some((id, source)) = self.store.hole() {
            self.ask(now, id, source, out);
        }
    }

    /// Where a beat is due, asks again for what a held decision lacks, says the last decision again, if there is need, and gives a
    /// sign of life to each other process.
    pub fn give_beat(&mut self, now: &Moment, out: &mut Outputs)
        requires fits { IsInRange self.old }
        requires now { MomentFits now.now }
        requires room { length out.old.sends + 15 + said_again self.old now.now.reading ≤ 64 }
        ensures stands { (team : TeamSeen) (r : Run) → RunStandsFor team self.old out.old r →
            RunStandsFor team self.new out.new (give_beat team now.now r) }
        ensures gives { GivesMore self.old.team.n (15 + said_again self.old now.now.reading) out.old out.new }
        ensures fits { IsInRange self.new }
        ensures team { self.new.team ≡ self.old.team }
    {
        if self.beat.is_due(self.team.pace, now.h) {
            self.beat.last = Some(now.h);
            self.ask_again(now, out);
            self.repeat_decision(now, out);
            self.give_signs(now, out);
        }
    }
}
