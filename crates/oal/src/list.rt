ghost use Rattle.std.specs.Prelude.{◌≡◌, ◌+◌, ◌<◌, ◌≤◌, ◌^◌, ℕ, [], ◌∷◌, length, map, Some, None, IfOk, IfSome, IsSome, MatchResult, option_copied};
ghost use Rattle.std.specs.Option.{option_map};
ghost use Rattle.tw_types.specs.declared.answer.Reason.TheVariants.{Missing as MissingReason};
ghost use Rattle.tw_types.specs.Beliefs.{Log, no_log, log_length};
ghost use Rattle.tw_types.specs.Decisions.{decision_length};
ghost use Rattle.tw_types.specs.Refusals.{first_refusal};
ghost use Rattle.tw_types.specs.Waiting.{entries_from};
ghost use Rattle.tw_types.specs.Logs.{log_room, kept_from, fit_tests, fit_tests_at, payload_test, log_after, kept_at, passed_one, marked_at, log_from};
ghost use Rattle.oal.specs.Recent.{IsRecent, place_of, grown, recent_after};
ghost use Rattle.oal.specs.StandsFor.{StandsFor};
ghost use Rattle.oal.specs.Faults.{extend_reason};

use std::alloc::Global;
use std::marker::Model;
use tw_num::WantOfMemory;
use tw_types::{Decision, Entry, Kept, Listed, Payloads, UpdateId};

/// So many entries are kept; a list may be so far ahead of what was passed.
const ROOM: u64 = 64;

/// Why a decision doesn't go on a list.
#[derive(Clone, Copy, Debug, PartialEq, Eq)]
pub enum ExtendFault {
    /// Its window begins behind the list's end, or ends before it.
    Gap,
    /// It ends more than 64 positions ahead of what was passed.
    Behind,
    /// The payload of this update is missing.
    Missing(UpdateId),
}

/// The list of updates of a process, as far as it is kept: its last 64 entries with their payloads, among them each that
/// isn't passed.
///
/// Positions count the entries from 0 on, also those that are no longer kept.
#[derive(Drop)]
pub struct Oal {
    kept: Listed<Kept, 64>,
    end: u64,
    passed: u64,
}

impl Model for Oal {
    ghost use Rattle.oal.specs.Recent.{Recent, IsRecent};

    ghost Value = { Recent };

    ghost view = { λ o. record { length = o.end; passed = o.passed; kept = o.kept } };

    ghost invariant = { λ o. IsRecent (record { length = o.end; passed = o.passed; kept = o.kept }) };
}

impl Oal {
    /// The empty list, nothing passed. All the room that it ever needs is taken here.
    pub fn new(alloc: Global) -> Result<Self, WantOfMemory>
        ensures { IfOk result (λ o. StandsFor o no_log) }
    {
        Ok(Oal {
            kept: Listed::new(alloc)?,
            end: 0,
            passed: 0,
        })
    }

    /// The position behind the last entry, at most 2^62.
    pub fn length(&self) -> u64
        ensures log { (log : Log) → StandsFor self.now log → result ≡ log_length log }
        ensures value { result ≡ self.now.length }
        ensures bounded { result ≤ 2 ^ 62 }
        ensures passed { self.now.passed ≤ self.now.length }
        ensures near { self.now.length ≤ self.now.passed + log_room }
    {
        self.end
    }

    /// The position up to which the list is passed: at most its length, and at most 64 before it. From there on each entry is
    /// kept.
    pub fn passed(&self) -> u64
        ensures log { (log : Log) → StandsFor self.now log → result ≡ log.passed }
        ensures value { result ≡ self.now.passed }
        ensures kept { (log : Log) → StandsFor self.now log → kept_from log ≤ log.passed }
    {
        self.passed
    }

    /// The entry at a position. None exactly where it isn't one of the last 64 positions of the list, or the list began
    /// behind it. Each entry that isn't passed is there.
    pub fn at(&self, position: u64) -> Option<&Kept>
        ensures log { (log : Log) → StandsFor self.now log → option_copied result ≡ kept_at position log }
        ensures unpassed { self.now.passed ≤ position → position < self.now.length → IsSome result }
    {
        self.kept.as_slice().get(self.place(position)?)
    }

    /// The place of a position among the entries that are kept.
    fn place(&self, position: u64) -> Option<usize>
        ensures place { result ≡ place_of position self.now }
        ensures within { IfSome result (λ place. place < length self.now.kept) }
        ensures facts { IsRecent self.now }
    {
        let first = self.end - self.kept.as_slice().len() as u64;
        (first <= position && position < self.end).then(|| (position - first) as usize)
    }

    /// Whether a decision goes on the list, with these payloads.
    ///
    /// Each fault comes exactly where it is the first one, in the order of `ExtendFault`. Of the payloads that are missing
    /// the first is told. None is wanted for an entry that the list has already.
    pub fn fits<P: Payloads>(&self, d: &Decision, p: &P) -> Result<(), ExtendFault>
        requires { d.now.low < 2 ^ 61 }
        ensures log { (log : Log) → StandsFor self.now log → MatchResult result
            (λ _. first_refusal (fit_tests log (P.payloads p.now) d.now) ≡ None)
            (λ fault. first_refusal (fit_tests log (P.payloads p.now) d.now) ≡ Some (extend_reason fault)) }
        ensures value { MatchResult result
            (λ _. first_refusal (fit_tests_at self.now.length self.now.passed (P.payloads p.now) d.now) ≡ None)
            (λ fault. first_refusal (fit_tests_at self.now.length self.now.passed (P.payloads p.now) d.now) ≡ Some (extend_reason fault)) }
    {
        let end = d.low + d.window.len() as u64;
        if self.end < d.low || end < self.end {
            return Err(ExtendFault::Gap);
        }
        if self.passed + ROOM < end {
            return Err(ExtendFault::Behind);
        }
        match first_missing(entries_from(self.end, d), p) {
            None => Ok(()),
            Some(id) => Err(ExtendFault::Missing(id)),
        }
    }

    /// Puts the entries of a decision that fits behind the end, late or not as the decision has them, each with the payload
    /// and the early mark that are found for it. What was passed stays.
    pub fn extend<P: Payloads>(&mut self, d: &Decision, p: &P)
        requires low { d.now.low < 2 ^ 61 }
        requires fits { first_refusal (fit_tests_at self.old.length self.old.passed (P.payloads p.now) d.now) ≡ None }
        ensures log { (log : Log) → StandsFor self.old log → StandsFor self.new (log_after (P.payloads p.now) d.now log) }
        ensures value { self.new ≡ recent_after (P.payloads p.now) d.now self.old }
        ensures length { self.new.length ≡ decision_length d.now }
    {
        for entry in entries_from(self.end, d) {
            if let Some(found) = p.find(&entry.id) {
                let mut kept = found.copy();
                kept.entry = *entry;
                self.push(kept);
            }
        }
    }

    /// Puts an entry behind the end of a list that isn't 64 ahead of what was passed. Where 64 are kept, the first goes.
    fn push(&mut self, kept: Kept)
        requires near { self.old.length < self.old.passed + log_room }
        requires bounded { self.old.length < 2 ^ 62 }
        ensures { self.new ≡ grown (kept ∷ []) self.old }
    {
        if self.kept.as_slice().len() as u64 == ROOM {
            self.kept.remove(0);
        }
        self.kept.push(kept);
        self.end += 1;
    }

    /// One position more is passed. One that isn't passed must be left.
    pub fn pass(&mut self)
        requires { self.old.passed < self.old.length }
        ensures log { (log : Log) → StandsFor self.old log → StandsFor self.new (passed_one log) }
        ensures value { self.new ≡ record self.old { passed = self.old.passed + 1 } }
    {
        self.passed += 1;
    }

    /// Marks the entry at a position as delivered early, if it is kept.
    pub fn mark_early(&mut self, position: u64)
        ensures log { (log : Log) → StandsFor self.old log → StandsFor self.new (marked_at position log) }
        ensures length { self.new.length ≡ self.old.length }
        ensures passed { self.new.passed ≡ self.old.passed }
    {
        if let Some(place) = self.place(position) {
            let mut kept = self.kept.as_slice()[place].copy();
            kept.early = true;
            self.kept.set(place, kept);
        }
    }

    /// The list begins anew at a position, with no entry, and all before it is passed.
    pub fn restart(&mut self, position: u64)
        requires { position < 2 ^ 61 }
        ensures { StandsFor self.new (log_from position) }
    {
        self.kept.clear();
        self.end = position;
        self.passed = position;
    }
}

impl Payloads for Oal {
    ghost use Rattle.std.specs.Prelude.{◌≡◌};
    ghost use Rattle.std.specs.Option.{option_copied};
    ghost use Rattle.tw_types.specs.Updates.{find_update};

    ghost payloads = { λ o. o.kept };

    /// The first of the last 64 entries that has the id.
    fn find(&self, id: &UpdateId) -> Option<&Kept>
        ensures exact { option_copied result ≡ find_update id.now self.now.kept }
    {
        self.kept
            .as_slice()
            .iter()
            .find(|kept| kept.entry.id == *id)
    }
}

/// The entries of a decision's window at this position and behind it.
fn entries_from(position: u64, d: &Decision) -> &[Entry]
    requires low { d.now.low ≤ position }
    requires end { position ≤ decision_length d.now }
    ensures entries { result.now ≡ entries_from position d.now }
    ensures few { length d.now.window.items ≤ 32 }
{
    &d.window[(position - d.low) as usize..]
}

/// The first of these entries whose payload is missing.
fn first_missing<P: Payloads>(entries: &[Entry], p: &P) -> Option<UpdateId>
    ensures { first_refusal (map (payload_test (P.payloads p.now)) entries.now) ≡ option_map MissingReason result }
{
    for entry in entries {
        if p.find(&entry.id).is_none() {
            return Some(entry.id);
        }
    }
    None
}
