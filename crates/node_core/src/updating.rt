//! Updates that come from others, questions for them, and what becomes of a held decision once all of its payloads are there.

ghost use Rattle.std.specs.Prelude.{◌≡◌};
ghost use Rattle.std.specs.List.{list_any};
ghost use Rattle.tw_types.specs.Decisions.{is_seat_of};
ghost use Rattle.tw_types.specs.Sends.{as_sent};

use crate::entering::is_older;
use crate::state::{Hold, Purpose, State};
use tw_num::Moment;
use tw_types::{Body, Decision, Kept, Member, Outputs, Payloads, Reason, UpdateId, Want};
use update_store::Put;

/// An update as it is sent again.
fn as_sent(kept: &Kept) -> Kept
    ensures { result ≡ as_sent kept.now }
{
    let mut sent = kept.copy();
    sent.entry.late = false;
    sent.early = false;
    sent
}

/// Whether a member has a seat in a decision.
fn has_seat(member: Member, d: &Decision) -> bool
    ensures { result ≡ list_any (is_seat_of member) d.now.seats.items }
{
    d.seats.iter().any(|seat| seat.member == member)
}

impl State {
    ghost use Rattle.std.specs.Prelude.{◌≡◌, ◌<◌, ◌≤◌, ◌+◌, ◌&&◌, not, false, length, IfSome};
    ghost use Rattle.std.specs.List.{list_any};
    ghost use Rattle.std.specs.Option.{option_copied, option_map};
    ghost use Rattle.tw_types.specs.declared.team.Team.{Team as TeamSeen};
    ghost use Rattle.tw_types.specs.Beliefs.{view_decision};
    ghost use Rattle.tw_types.specs.Decisions.{or_none, is_same_member, is_seat_of};
    ghost use Rattle.tw_types.specs.Process.{Process};
    ghost use Rattle.tw_types.specs.Ranges.{DecisionFits, UpdateFits, WantFits};
    ghost use Rattle.tw_types.specs.Updates.{sender};
    ghost use Rattle.tw_types.specs.Waiting.{is_hole, putting};
    ghost use Rattle.tw_machine.specs.Run.{Run};
    ghost use Rattle.tw_machine.specs.Standing.{member_of};
    ghost use Rattle.tw_machine.specs.Updating.{is_stale, without_held, use_held, use_if_whole, received_as, take_update, held_update, answer_update, answer_ask};
    ghost use Rattle.update_store.specs.Put.{putting_of};
    ghost use Rattle.node_core.specs.declared.state.Purpose.TheVariants.{ToTake};
    ghost use Rattle.node_core.specs.InRange.{IsInRange, ListedFits};
    ghost use Rattle.node_core.specs.Moments.{MomentFits};
    ghost use Rattle.node_core.specs.Outcomes.{kept_as, whole_seen, whole_held};
    ghost use Rattle.node_core.specs.Sends.{GivesMore};
    ghost use Rattle.node_core.specs.StandsFor.{StandsFor, RunStandsFor, identity_seen, belief_seen, hold_seen};

    // ---- a held decision

    /// A copy of the held decision, and for what it is held, where none of its payloads is missing.
    fn whole_held(&self) -> Option<(Decision, Hold)>
        requires fits { IsInRange self.now }
        ensures exact { (p : Process) → StandsFor self.now p → option_map whole_seen result ≡ whole_held p }
        ensures fits { IfSome result (λ whole. DecisionFits self.now.team.n whole.0) }
        ensures group { IfSome result (λ whole. whole.1.purpose ≡ ToTake → whole.0.group ≤ whole.1.promised) }
    {
        if self.store.hole().is_some() {
            return None;
        }
        let held = self.store.held()?;
        let hold = self.hold?;
        Some((held.copy(), hold))
    }

    /// Whether a held decision is of no use any more: one above it was taken or followed, or another number promised.
    fn is_stale(&self, d: &Decision, hold: Hold) -> bool
        ensures exact { (p : Process) → StandsFor self.now p → result ≡ is_stale (hold_seen hold) d.now p }
        ensures promised { result ≡ false → hold.promised ≡ self.now.vote.promised }
    {
        self.belief.view().is_some_and(|view| is_older(d, view))
            || hold.promised != self.vote.promised
    }

    /// Holds no decision any longer.
    fn release(&mut self)
        requires fits { IsInRange self.old }
        ensures stands { (p : Process) → StandsFor self.old p → StandsFor self.new (without_held p) }
        ensures fits { IsInRange self.new }
        ensures team { self.new.team ≡ self.old.team }
    {
        self.store.release();
        self.hold = None;
    }

    /// Uses the held decision, where none of its payloads is missing: one of no use goes; one that was to be taken is tried again,
    /// from its list on; one for a group waits on.
    pub fn use_if_whole(&mut self, now: &Moment, out: &mut Outputs)
        requires fits { IsInRange self.old }
        requires now { MomentFits now.now }
        requires room { length out.old.sends + 1 ≤ 64 }
        ensures stands { (team : TeamSeen) (r : Run) → RunStandsFor team self.old out.old r →
            RunStandsFor team self.new out.new (use_if_whole now.now r) }
        ensures gives { GivesMore self.old.team.n 1 out.old out.new }
        ensures fits { IsInRange self.new }
        ensures team { self.new.team ≡ self.old.team }
    {
        if let Some((d, hold)) = self.whole_held() {
            self.use_held(now, &d, hold, out);
        }
    }

    /// Uses the held decision.
    fn use_held(&mut self, now: &Moment, d: &Decision, hold: Hold, out: &mut Outputs)
        requires fits { IsInRange self.old }
        requires now { MomentFits now.now }
        requires decision { DecisionFits self.old.team.n d.now }
        requires group { hold.purpose ≡ ToTake → d.now.group ≤ hold.promised }
        requires room { length out.old.sends + 1 ≤ 64 }
        ensures stands { (team : TeamSeen) (r : Run) → RunStandsFor team self.old out.old r →
            RunStandsFor team self.new out.new (use_held now.now d.now (hold_seen hold) r) }
        ensures gives { GivesMore self.old.team.n 1 out.old out.new }
        ensures fits { IsInRange self.new }
        ensures team { self.new.team ≡ self.old.team }
    {
        if self.is_stale(d, hold) {
            self.release();
            return;
        }
        match hold.purpose {
            Purpose::ToTake => {
                let _ = self.enter_decision(now, d, out);
            }
            Purpose::ToGroup => {}
        }
    }

    // ---- an update

    /// Keeps an update where it is wanted: with the held decision, or among the pending ones. Answers what became of it.
    pub fn put(&mut self, kept: &Kept) -> Put
        requires fits { IsInRange self.old }
        requires update { UpdateFits self.old.team.n kept.now }
        ensures answer { (p : Process) → StandsFor self.old p → putting_of result ≡ putting (view_decision p.belief) kept.now p.waiting }
        ensures stands { (p : Process) → StandsFor self.old p → StandsFor self.new (kept_as (putting (view_decision p.belief) kept.now p.waiting) kept.now p) }
        ensures fits { IsInRange self.new }
        ensures team { self.new.team ≡ self.old.team }
    {
        self.store.put(self.belief.view(), kept)
    }

    /// Whether an update is of this process's present life.
    fn is_own(&self, id: &UpdateId) -> bool
        ensures { result ≡ is_same_member (sender id.now) (member_of (identity_seen self.now.identity)) }
    {
        id.who == self.identity.who && id.incarnation == self.identity.incarnation
    }

    /// Whether an update of this process's present life came back to it that fills no hole.
    fn came_back(&self, id: &UpdateId) -> bool
        ensures { result ≡ (is_same_member (sender id.now) (member_of (identity_seen self.now.identity)) && not (is_hole id.now self.now.store.waiting.held)) }
    {
        self.is_own(id) && !self.store.is_hole(id)
    }

    /// Whether the sender of an update has a seat in the decision that the process took or follows.
    fn is_seated(&self, id: &UpdateId) -> bool
        ensures { result ≡ list_any (is_seat_of (sender id.now)) (or_none (view_decision (belief_seen self.now.belief))).seats.items }
    {
        let member = Member {
            who: id.who,
            incarnation: id.incarnation,
        };
        match self.belief.view() {
            None => false,
            Some(view) => has_seat(member, view),
        }
    }

    /// Keeps an update that was received. One of the process's own life that comes back to it only fills a hole.
    fn put_received(&mut self, kept: &Kept) -> Put
        requires fits { IsInRange self.old }
        requires update { UpdateFits self.old.team.n kept.now }
        ensures answer { (p : Process) → StandsFor self.old p → putting_of result ≡ received_as p kept.now }
        ensures stands { (p : Process) → StandsFor self.old p → StandsFor self.new (kept_as (received_as p kept.now) kept.now p) }
        ensures fits { IsInRange self.new }
        ensures team { self.new.team ≡ self.old.team }
    {
        let id = &kept.entry.id;
        if !self.came_back(id) {
            return self.put(kept);
        }
        if self.is_seated(id) {
            Put::Known
        } else {
            Put::Stranger
        }
    }

    /// Takes an update, whenever it comes. Answers why it isn't wanted, if it isn't.
    #[inline(never)]
    pub fn take_update(&mut self, now: &Moment, kept: &Kept, out: &mut Outputs) -> Option<Reason>
        requires fits { IsInRange self.old }
        requires now { MomentFits now.now }
        requires update { UpdateFits self.old.team.n kept.now }
        requires room { length out.old.sends + 1 ≤ 64 }
        ensures stands { (team : TeamSeen) (r : Run) → RunStandsFor team self.old out.old r →
            RunStandsFor team self.new out.new (take_update now.now kept.now r).run }
        ensures dropped { (team : TeamSeen) (r : Run) → RunStandsFor team self.old out.old r →
            result ≡ (take_update now.now kept.now r).dropped }
        ensures gives { GivesMore self.old.team.n 1 out.old out.new }
        ensures fits { IsInRange self.new }
        ensures team { self.new.team ≡ self.old.team }
    {
        match self.put_received(kept) {
            Put::Filled => {
                self.use_if_whole(now, out);
                None
            }
            Put::Stored => None,
            Put::Known => Some(Reason::Old),
            Put::Stranger => Some(Reason::NotMember),
            Put::OutOfRange => Some(Reason::OutOfWindow),
        }
    }

    // ---- a question for an update

    /// The update with this id, where the process has it: among the last entries of its list, else pending, else kept with the held
    /// decision.
    fn held_update(&self, id: &UpdateId) -> Option<&Kept>
        requires fits { IsInRange self.now }
        ensures exact { (p : Process) → StandsFor self.now p → option_copied result ≡ held_update id.now p }
        ensures fits { IfSome (option_copied result) (ListedFits self.now.team.n) }
    {
        if let Some(kept) = self.oal.find(id) {
            return Some(kept);
        }
        self.store.find(id)
    }

    /// Sends the update with this id to process `from`, if it is here. Answers why it can't, if it can't.
    fn answer_update(
        &self,
        now: &Moment,
        from: u8,
        id: &UpdateId,
        out: &mut Outputs,
    ) -> Option<Reason>
        requires fits { IsInRange self.now }
        requires now { MomentFits now.now }
        requires from { from < self.now.team.n }
        requires room { length out.old.sends + 1 ≤ 64 }
        ensures stands { (team : TeamSeen) (r : Run) → RunStandsFor team self.now out.old r →
            RunStandsFor team self.now out.new (answer_update now.now from id.now r).run }
        ensures dropped { (team : TeamSeen) (r : Run) → RunStandsFor team self.now out.old r →
            result ≡ (answer_update now.now from id.now r).dropped }
        ensures gives { GivesMore self.now.team.n 1 out.old out.new }
    {
        let Some(kept) = self.held_update(id) else {
            return Some(Reason::NotHeld);
        };
        let update = Body::Update(as_sent(kept));
        self.send_to(now, from, &update, out);
        None
    }

    /// Answers a question of process `from` for an update. No process has a table to give.
    #[inline(never)]
    pub fn answer_ask(
        &self,
        now: &Moment,
        from: u8,
        want: &Want,
        out: &mut Outputs,
    ) -> Option<Reason>
        requires fits { IsInRange self.now }
        requires now { MomentFits now.now }
        requires from { from < self.now.team.n }
        requires room { length out.old.sends + 1 ≤ 64 }
        ensures stands { (team : TeamSeen) (r : Run) → RunStandsFor team self.now out.old r →
            RunStandsFor team self.now out.new (answer_ask now.now from want.now r).run }
        ensures dropped { (team : TeamSeen) (r : Run) → RunStandsFor team self.now out.old r →
            result ≡ (answer_ask now.now from want.now r).dropped }
        ensures gives { GivesMore self.now.team.n 1 out.old out.new }
    {
        match want {
            Want::Update(id) => self.answer_update(now, from, id, out),
            Want::Table(_) => Some(Reason::NotHeld),
        }
    }
}
