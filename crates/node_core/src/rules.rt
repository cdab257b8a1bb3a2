//! What a packet that was heard makes of a process, kind by kind.

use crate::state::State;
use tw_num::Moment;
use tw_types::{Body, Datagram, Head, Outputs, Reason};

impl State {
    ghost use Rattle.std.specs.Prelude.{◌≡◌, ◌<◌, ◌≤◌, ◌+◌, length, IfOk, IfSome};
    ghost use Rattle.tw_types.specs.declared.team.Team.{Team as TeamSeen};
    ghost use Rattle.tw_types.specs.Ranges.{HeadFits, BodyFits, DatagramFits};
    ghost use Rattle.tw_machine.specs.Run.{Run};
    ghost use Rattle.tw_machine.specs.Rules.{kind_rule, rule};
    ghost use Rattle.node_core.specs.InRange.{IsInRange};
    ghost use Rattle.node_core.specs.Inbox.{packet_in};
    ghost use Rattle.node_core.specs.Moments.{MomentFits};
    ghost use Rattle.node_core.specs.Sends.{GivesMore};
    ghost use Rattle.node_core.specs.StandsFor.{RunStandsFor};

    /// The rule of a packet's kind. Answers why the packet is dropped, if it is.
    #[tactic(auto, unfolding(tw_machine::specs::Rules::kind_rule))]
    fn kind_rule(
        &mut self,
        now: &Moment,
        head: &Head,
        body: &Body,
        out: &mut Outputs,
    ) -> Option<Reason>
        requires fits { IsInRange self.old }
        requires now { MomentFits now.now }
        requires head { HeadFits head.now }
        requires from { head.now.from < self.old.team.n }
        requires body { BodyFits self.old.team.n head.now body.now }
        requires room { length out.old.sends + 1 ≤ 64 }
        ensures stands { (team : TeamSeen) (r : Run) → RunStandsFor team self.old out.old r →
            RunStandsFor team self.new out.new (kind_rule team now.now head.now body.now r).run }
        ensures dropped { (team : TeamSeen) (r : Run) → RunStandsFor team self.old out.old r →
            result ≡ (kind_rule team now.now head.now body.now r).dropped }
        ensures gives { GivesMore self.old.team.n 1 out.old out.new }
        ensures fits { IsInRange self.new }
        ensures team { self.new.team ≡ self.old.team }
    {
        match body {
            Body::Decision(decision) => match self.timely_reading(now, head) {
                Err(reason) => Some(reason),
                Ok(_) => self.take_decision(now, decision, out),
            },
            Body::Election { number, why } => match self.timely_reading(now, head) {
                Err(reason) => Some(reason),
                Ok(t) => self.answer_election(now, head.from, *number, *why, t, out),
            },
            Body::Promise {
                number,
                report,
                decision,
            } => match self.timely_reading(now, head) {
                Err(reason) => Some(reason),
                Ok(_) => self.take_promise(*number, report, decision.as_ref()),
            },
            Body::Update(kept) => self.take_update(now, kept, out),
            Body::Ask(want) => self.answer_ask(now, head.from, want, out),
            Body::NoDecision { .. } | Body::State { .. } | Body::Sync { .. } => None,
        }
    }

    /// The rule of an event, which has a packet, in the inbox, or none, or was dropped before. Answers why the event is
    /// dropped, if it is.
    pub fn rule(
        &mut self,
        now: &Moment,
        packet: Result<bool, Reason>,
        inbox: &Datagram,
        out: &mut Outputs,
    ) -> Option<Reason>
        requires fits { IsInRange self.old }
        requires now { MomentFits now.now }
        requires packet { IfOk (packet_in packet inbox.now) (λ packet. IfSome packet (DatagramFits self.old.team.n)) }
        requires from { IfOk (packet_in packet inbox.now) (λ packet. IfSome packet (λ d. d.head.from < self.old.team.n)) }
        requires room { length out.old.sends + 1 ≤ 64 }
        ensures stands { (team : TeamSeen) (r : Run) → RunStandsFor team self.old out.old r →
            RunStandsFor team self.new out.new (rule team now.now (packet_in packet inbox.now) r).run }
        ensures dropped { (team : TeamSeen) (r : Run) → RunStandsFor team self.old out.old r →
            result ≡ (rule team now.now (packet_in packet inbox.now) r).dropped }
        ensures gives { GivesMore self.old.team.n 1 out.old out.new }
        ensures fits { IsInRange self.new }
        ensures team { self.new.team ≡ self.old.team }
    {
        match packet {
            Err(reason) => Some(reason),
            Ok(false) => None,
            Ok(true) => self.kind_rule(now, &inbox.head, &inbox.body, out),
        }
    }
}
