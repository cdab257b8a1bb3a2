//! What a process delivers of its own accord.

ghost use Rattle.std.specs.Prelude.{◌≡◌, ◌<◌, ◌≤◌, ◌+◌, [], ◌∷◌, ◌++◌, length, Some};
ghost use Rattle.tw_types.specs.declared.message.Kept.{Kept as KeptSeen};
ghost use Rattle.tw_types.specs.Beliefs.{Log};
ghost use Rattle.tw_types.specs.Logs.{log_at, passed_one, marked_at};
ghost use Rattle.tw_types.specs.Deliveries.{passes, run_passed, as_early, earlies, earlies_marked, weaks, waiting_delivered};
ghost use Rattle.oal.specs.StandsFor.{StandsFor};
ghost use Rattle.node_core.specs.InRange.{KeepsList};

use crate::state::State;
use delivery::{next_early, next_pass};
use oal::Oal;
use tw_types::{Decision, Earlies, How, Kept, Outputs, Pass, Passes, Team};
use update_store::Store;

/// Passes the position at the cursor.
fn pass_one(how: How, log: &mut Oal, out: &mut Passes)
    requires left { log.old.passed < log.old.length }
    requires room { length out.old < 64 }
    ensures log { (l : Log) → StandsFor log.old l → StandsFor log.new (passed_one l) }
    ensures passed { log.new.passed ≡ log.old.passed + 1 }
    ensures length { log.new.length ≡ log.old.length }
    ensures out { (l : Log) (k : KeptSeen) → StandsFor log.old l → log_at l.passed l ≡ Some k →
        out.new ≡ out.old ++ record { position = l.passed; kept = k; how = how } ∷ [] }
    ensures one { length out.new ≡ length out.old + 1 }
{
    let position = log.passed();
    if let Some(kept) = log.at(position) {
        out.push(Pass {
            position,
            kept: kept.copy(),
            how,
        });
        log.pass();
    }
}

/// Passes what may be passed by the last decision, from the cursor on, one position after the other.
fn deliver_run(team: &Team, last: &Decision, log: &mut Oal, out: &mut Passes)
    requires kept { KeepsList log.old }
    requires empty { out.old ≡ [] }
    ensures log { (l : Log) → StandsFor log.old l → StandsFor log.new (run_passed team.now last.now l) }
    ensures out { (l : Log) → StandsFor log.old l → out.new ≡ passes team.now last.now l }
    ensures length { log.new.length ≡ log.old.length }
{
    // there is room for all that isn't passed
    let left = log.length() - log.passed();
    prove!(left <= 64);
    while let Some(how) = next_pass(team, last, log) {
        pass_one(how, log, out);
    }
}

/// Delivers early the update at a position that isn't passed.
fn mark_one(position: u64, log: &mut Oal, out: &mut Earlies)
    requires unpassed { log.old.passed ≤ position }
    requires within { position < log.old.length }
    requires room { length out.old < 192 }
    ensures log { (l : Log) → StandsFor log.old l → StandsFor log.new (marked_at position l) }
    ensures passed { log.new.passed ≡ log.old.passed }
    ensures length { log.new.length ≡ log.old.length }
    ensures out { (l : Log) (k : KeptSeen) → StandsFor log.old l → log_at position l ≡ Some k →
        out.new ≡ out.old ++ as_early k ∷ [] }
    ensures one { length out.new ≡ length out.old + 1 }
{
    if let Some(kept) = log.at(position) {
        out.push(Kept {
            early: true,
            ..kept.copy()
        });
        log.mark_early(position);
    }
}

/// Delivers early what may be by the last decision, from the cursor on, by position.
fn deliver_earlies(team: &Team, last: &Decision, log: &mut Oal, out: &mut Earlies)
    requires kept { KeepsList log.old }
    requires empty { out.old ≡ [] }
    ensures log { (l : Log) → StandsFor log.old l → StandsFor log.new (earlies_marked team.now last.now l.passed l) }
    ensures out { (l : Log) → StandsFor log.old l → out.new ≡ earlies team.now last.now l.passed l }
    ensures few { length out.new ≤ 64 }
    ensures length { log.new.length ≡ log.old.length }
{
    let mut from = log.passed();
    // there is room for all that isn't passed
    let left = log.length() - from;
    prove!(left <= 64);
    while let Some(position) = next_early(team, last, log, from) {
        mark_one(position, log, out);
        from = position + 1;
    }
}

/// Delivers the pending updates that may be before they have a position, in the order in which they wait.
fn deliver_weaks(store: &mut Store, out: &mut Earlies)
    requires room { length out.old ≤ 64 }
    ensures store { store.new ≡ record (store.old) { waiting = waiting_delivered store.old.waiting } }
    ensures out { out.new ≡ out.old ++ weaks store.old.waiting.pending }
{
    while let Some(kept) = store.next_weak() {
        let kept = Kept {
            early: true,
            ..kept.copy()
        };
        store.mark_early(&kept.entry.id);
        out.push(kept);
    }
}

impl State {
    ghost use Rattle.std.specs.Prelude.{◌≡◌, [], Some};
    ghost use Rattle.tw_machine.specs.Types.{Team as TeamSeen, Decision as DecisionSeen};
    ghost use Rattle.tw_types.specs.Beliefs.{last_of};
    ghost use Rattle.tw_machine.specs.Run.{Run};
    ghost use Rattle.tw_machine.specs.Delivering.{all_delivered, deliver};
    ghost use Rattle.node_core.specs.InRange.{IsInRange};
    ghost use Rattle.node_core.specs.Outcomes.{says_again};
    ghost use Rattle.node_core.specs.StandsFor.{RunStandsFor, belief_seen};

    /// Delivers what a process may that is up: it passes what it may; behind its cursor it delivers early what it may; and then
    /// what waits and may be.
    fn deliver_all(&mut self, out: &mut Outputs)
        requires fits { IsInRange self.old }
        requires passes { out.old.passes ≡ [] }
        requires earlies { out.old.earlies ≡ [] }
        ensures stands { (team : TeamSeen) (last : DecisionSeen) (r : Run) → last_of (belief_seen self.old.belief) ≡ Some last →
            RunStandsFor team self.old out.old r → RunStandsFor team self.new out.new (all_delivered team last r) }
        ensures sends { out.new.sends ≡ out.old.sends }
        ensures fits { IsInRange self.new }
        ensures team { self.new.team ≡ self.old.team }
        ensures identity { self.new.identity ≡ self.old.identity }
        ensures vote { self.new.vote ≡ self.old.vote }
        ensures belief { self.new.belief ≡ self.old.belief }
    {
        if let Some(last) = self.belief.last() {
            deliver_run(&self.team, last, &mut self.oal, &mut out.passes);
            deliver_earlies(&self.team, last, &mut self.oal, &mut out.earlies);
            deliver_weaks(&mut self.store, &mut out.earlies);
        }
    }

    /// Delivers what the process may at its reading `t` of team time, where it is up.
    #[inline(never)]
    pub fn deliver(&mut self, t: u64, out: &mut Outputs)
        requires fits { IsInRange self.old }
        requires passes { out.old.passes ≡ [] }
        requires earlies { out.old.earlies ≡ [] }
        ensures stands { (team : TeamSeen) (r : Run) → RunStandsFor team self.old out.old r →
            RunStandsFor team self.new out.new (deliver team t r) }
        ensures sends { out.new.sends ≡ out.old.sends }
        // who says its decision again does so after it delivered, too
        ensures again { says_again self.new (Some t) ≡ says_again self.old (Some t) }
        ensures fits { IsInRange self.new }
        ensures team { self.new.team ≡ self.old.team }
    {
        if self.is_up(Some(t)) {
            self.deliver_all(out);
        }
    }
}
