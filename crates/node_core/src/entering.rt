//! What becomes of a decision of the process's group: it goes on the list, or is held for the payloads that it lacks.

ghost use Rattle.std.specs.Prelude.{◌≡◌};
ghost use Rattle.tw_types.specs.Decisions.{is_older};

use crate::state::{Belief, Hold, Purpose, State};
use oal::ExtendFault;
use tw_num::Moment;
use tw_types::{Body, Decision, Outputs, UpdateId, Want};

/// Whether the first decision is below the second: of a lower group, or of a lower turn of the same one.
pub fn is_older(first: &Decision, second: &Decision) -> bool
    ensures { result ≡ is_older first.now.group first.now.turn second.now.group second.now.turn }
{
    first.group < second.group || first.group == second.group && first.turn < second.turn
}

impl State {
    ghost use Rattle.std.specs.Prelude.{◌≡◌, ◌<◌, ◌≤◌, ◌+◌, ◌^◌, length, None, Some};
    ghost use Rattle.tw_types.specs.declared.team.Team.{Team as TeamSeen};
    ghost use Rattle.tw_types.specs.Beliefs.{last_of};
    ghost use Rattle.tw_types.specs.Logs.{fit_tests_at};
    ghost use Rattle.tw_types.specs.Process.{Process};
    ghost use Rattle.tw_types.specs.Ranges.{IdFits, DecisionFits};
    ghost use Rattle.tw_types.specs.Refusals.{first_refusal};
    ghost use Rattle.tw_types.specs.Waiting.{payloads_of};
    ghost use Rattle.tw_machine.specs.Entering.{is_overtaken, entered, asked, decision_held};
    ghost use Rattle.tw_machine.specs.Run.{Run};
    ghost use Rattle.node_core.specs.declared.state.Purpose.TheVariants.{ToTake};
    ghost use Rattle.node_core.specs.InRange.{IsInRange};
    ghost use Rattle.node_core.specs.Moments.{MomentFits};
    ghost use Rattle.node_core.specs.Outcomes.{let_go, list_reason};
    ghost use Rattle.node_core.specs.Sends.{GivesMore};
    ghost use Rattle.node_core.specs.StandsFor.{StandsFor, RunStandsFor, purpose_seen, belief_seen};

    /// Whether a decision is held that isn't above this one.
    fn has_overtaken(&self, d: &Decision) -> bool
        ensures { result ≡ is_overtaken d.now self.now.store.waiting.held }
    {
        self.store.held().is_some_and(|held| !is_older(d, held))
    }

    /// Lets go a held decision that isn't above this one, which is taken.
    fn let_go(&mut self, d: &Decision)
        requires fits { IsInRange self.old }
        ensures stands { (p : Process) → StandsFor self.old p → StandsFor self.new (let_go d.now p) }
        ensures fits { IsInRange self.new }
        ensures team { self.new.team ≡ self.old.team }
        ensures belief { self.new.belief ≡ self.old.belief }
    {
        if self.has_overtaken(d) {
            self.store.release();
            self.hold = None;
        }
    }

    /// Takes a decision of the promised group that fits the list. The list goes on with its entries.
    pub fn enter(&mut self, d: &Decision)
        requires fits { IsInRange self.old }
        requires decision { DecisionFits self.old.team.n d.now }
        requires promised { d.now.group ≤ self.old.vote.promised }
        requires list { first_refusal (fit_tests_at self.old.oal.length self.old.oal.passed (payloads_of self.old.store.waiting) d.now) ≡ None }
        ensures stands { (p : Process) → StandsFor self.old p → StandsFor self.new (entered d.now p) }
        ensures fits { IsInRange self.new }
        ensures team { self.new.team ≡ self.old.team }
        ensures last { last_of (belief_seen self.new.belief) ≡ Some d.now }
    {
        self.oal.extend(d, &self.store);
        self.store.settle(d);
        self.belief = Belief::Informed(Some(d.copy()));
        self.let_go(d);
    }

    /// Asks a process for an update.
    pub fn ask(&self, now: &Moment, id: UpdateId, source: u8, out: &mut Outputs)
        requires now { MomentFits now.now }
        requires id { IdFits self.now.team.n id }
        requires source { source < self.now.team.n }
        requires room { length out.old.sends + 1 ≤ 64 }
        ensures stands { (team : TeamSeen) (r : Run) → RunStandsFor team self.now out.old r →
            RunStandsFor team self.now out.new (asked now.now id source r) }
        ensures gives { GivesMore self.now.team.n 1 out.old out.new }
    {
        let question = Body::Ask(Want::Update(id));
        self.send_to(now, source, &question, out);
    }

    /// Whether a decision goes on the process's list as it stands, or why it doesn't.
    pub fn fits_list(&self, d: &Decision) -> Result<(), ExtendFault>
        requires { d.now.low < 2 ^ 61 }
        ensures { first_refusal (fit_tests_at self.now.oal.length self.now.oal.passed (payloads_of self.now.store.waiting) d.now) ≡ list_reason result }
    {
        self.oal.fits(d, &self.store)
    }

    /// Holds a decision for what it is wanted, with all of its payloads that are there, and asks a process that has the others
    /// for this one.
    pub fn hold_for(
        &mut self,
        now: &Moment,
        purpose: Purpose,
        d: &Decision,
        source: u8,
        id: UpdateId,
        out: &mut Outputs,
    )
        requires fits { IsInRange self.old }
        requires now { MomentFits now.now }
        requires decision { DecisionFits self.old.team.n d.now }
        requires source { source < self.old.team.n }
        requires id { IdFits self.old.team.n id }
        requires promised { purpose ≡ ToTake → d.now.group ≤ self.old.vote.promised }
        requires room { length out.old.sends + 1 ≤ 64 }
        ensures stands { (team : TeamSeen) (r : Run) → RunStandsFor team self.old out.old r →
            RunStandsFor team self.new out.new (decision_held now.now (purpose_seen purpose) d.now source id r) }
        ensures gives { GivesMore self.old.team.n 1 out.old out.new }
        ensures fits { IsInRange self.new }
        ensures team { self.new.team ≡ self.old.team }
    {
        let first = self.oal.length();
        self.store.hold(d, first, source);
        let promised = self.vote.promised;
        self.hold = Some(Hold { purpose, promised });
        self.ask(now, id, source, out);
    }
}
