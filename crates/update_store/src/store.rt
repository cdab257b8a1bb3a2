ghost use Rattle.std.specs.Prelude.{◌≡◌, ◌≤◌, true, false, length, IfOk, IfSome};
ghost use Rattle.std.specs.List.{AllByRecursion};
ghost use Rattle.std.specs.Option.{option_copied, option_map};
ghost use Rattle.tw_types.specs.declared.message.Kept.{Kept as KeptSeen};
ghost use Rattle.tw_types.specs.Decisions.{or_none};
ghost use Rattle.tw_types.specs.Updates.{find_update, next_weak, may_be_early, waits_before};
ghost use Rattle.tw_types.specs.Waiting.{nothing_waits, MayPut, Stored as stored, putting, after_put, holding, first_hole, is_hole, released, settled_by, marked_early};
ghost use Rattle.update_store.specs.Put.{putting_of};
ghost use Rattle.update_store.specs.Stock.{IsStock};

use crate::kept::{
    HeldPayloads, collect, entries_from, find_in_both, find_update, first_hole, has_update, wants,
};
use crate::pending;
use crate::pending::Pending;
use crate::putting::{Put, put_by_seat};
use std::alloc::Global;
use std::marker::Model;
use std::mem::swap;
use tw_num::WantOfMemory;
use tw_types::{Decision, Kept, Listed, Payloads, UpdateId};

/// A decision that isn't taken yet, since payloads are missing.
#[derive(Drop)]
struct HeldDecision {
    decision: Decision,
    /// Payloads are wanted from this position of the list on.
    first: u64,
    /// The process that has them.
    source: u8,
}

/// What waits at a process of a team: updates that have no place in the list yet, and at most one held decision with the
/// payloads that are kept for it.
#[derive(Drop)]
pub struct Store {
    n: u8,
    pending: Pending,
    held: Option<HeldDecision>,
    /// Those of the held decision.
    payloads: HeldPayloads,
    /// Room for those of the next one.
    spare: HeldPayloads,
}

impl Model for Store {
    ghost use Rattle.update_store.specs.Stock.{Stock};

    ghost Value = { Stock };

    ghost use Rattle.update_store.specs.Inside.{stock_of, IsInside};

    ghost view = { stock_of };

    ghost invariant = { IsInside };
}

impl Store {
    /// A store of a team of `n`, where nothing waits. It has room for all that may wait.
    pub fn new(alloc: Global, n: u8) -> Result<Store, WantOfMemory>
        ensures { IfOk result (λ s. s ≡ record { n = n; waiting = nothing_waits }) }
    {
        Ok(Store {
            n,
            pending: Listed::new(alloc)?,
            held: None,
            payloads: Listed::new(alloc)?,
            spare: Listed::new(alloc)?,
        })
    }

    /// Takes an update that came, where the process took or follows `view`. What is pending must be settled by `view`.
    ///
    /// A hole of the held decision is filled, whoever sent the update. Else it becomes pending where its sender's seat awaits its
    /// number. Else nothing changes.
    pub fn put(&mut self, view: Option<&Decision>, kept: &Kept) -> Put
        requires { MayPut self.old.n (option_copied view) kept.now self.old.waiting.pending }
        ensures answer { putting_of result ≡ putting (option_copied view.entry) kept.now self.old.waiting }
        ensures after { self.new ≡ record (self.old) { waiting = after_put (option_copied view.entry) kept.now self.old.waiting } }
    {
        let put = self.putting(view, kept);
        match put {
            Put::Filled => self.payloads.push(kept.copy()),
            Put::Stored => pending::insert(&mut self.pending, kept.copy()),
            Put::Known | Put::Stranger | Put::OutOfRange => {}
        }
        put
    }

    /// What becomes of an update that comes.
    fn putting(&self, view: Option<&Decision>, kept: &Kept) -> Put
        ensures answer { putting_of result ≡ putting (option_copied view.entry) kept.now self.now.waiting }
        ensures few { putting_of result ≡ stored → length (or_none (option_copied view.entry)).seats.items ≤ 15 }
    {
        if self.is_hole(&kept.entry.id) {
            Put::Filled
        } else {
            put_by_seat(view, self.pending.as_slice(), kept)
        }
    }

    /// Holds a decision whose payloads are wanted from position `first` of the list on. Process `from` has them.
    ///
    /// What is found for them is kept with it: copies of pending updates, and of payloads that were kept with the decision that was
    /// held before. Other payloads of that one are lost.
    pub fn hold(&mut self, d: &Decision, first: u64, from: u8)
        ensures { self.new ≡ record (self.old) { waiting = holding d.now first from self.old.waiting } }
    {
        let entries = entries_from(first, d);
        collect(
            &mut self.spare,
            entries,
            self.pending.as_slice(),
            self.payloads.as_slice(),
        );
        swap(&mut self.payloads, &mut self.spare);
        self.held = Some(HeldDecision {
            decision: d.copy(),
            first,
            source: from,
        });
    }

    /// The held decision. It stays held when its last hole is filled.
    pub fn held(&self) -> Option<&Decision>
        ensures { option_copied result ≡ option_map (λ h. h.decision) self.now.waiting.held }
    {
        self.held.as_ref().map(|held| &held.decision)
    }

    /// The first update of the held decision whose payload is missing, and the process to ask for it. None exactly where there is
    /// none.
    pub fn hole(&self) -> Option<(UpdateId, u8)>
        ensures { result ≡ first_hole self.now.waiting.held }
    {
        match &self.held {
            None => None,
            Some(held) => {
                let entries = entries_from(held.first, &held.decision);
                first_hole(entries, self.payloads.as_slice()).map(|id| (id, held.source))
            }
        }
    }

    /// Whether the held decision wants the update with this id, and its payload is missing.
    pub fn is_hole(&self, id: &UpdateId) -> bool
        ensures { result ≡ is_hole id.now self.now.waiting.held }
    {
        match &self.held {
            None => false,
            Some(held) => {
                wants(id, entries_from(held.first, &held.decision))
                    && !has_update(id, self.payloads.as_slice())
            }
        }
    }

    /// Holds no decision any longer. Its payloads go with it.
    pub fn release(&mut self)
        ensures { self.new ≡ record (self.old) { waiting = released self.old.waiting } }
    {
        self.held = None;
        self.payloads.clear();
    }

    /// Keeps of the pending updates those whose sender has a seat in `d` that awaits their numbers. What is held stays.
    pub fn settle(&mut self, d: &Decision)
        ensures { self.new ≡ record (self.old) { waiting = settled_by d.now self.old.waiting } }
    {
        pending::settle(&mut self.pending, d);
    }

    /// Marks a pending update as delivered early. A payload that is kept with the held decision isn't marked.
    pub fn mark_early(&mut self, id: &UpdateId)
        ensures { self.new ≡ record (self.old) { waiting = marked_early id.now self.old.waiting } }
    {
        pending::mark_early(&mut self.pending, id);
    }

    /// The pending update with this id.
    pub fn pending(&self, id: &UpdateId) -> Option<&Kept>
        ensures exact { option_copied result ≡ find_update id.now self.now.waiting.pending }
        ensures facts { IsStock self.now }
    {
        find_update(id, self.pending.as_slice())
    }

    /// The pending update that is to be delivered before it has a place: the first weak and unordered one, in the order of the
    /// processes that sent them and of their numbers, that wasn't delivered yet.
    pub fn next_weak(&self) -> Option<&Kept>
        ensures exact { option_copied result ≡ next_weak self.now.waiting.pending }
        ensures least { IfSome (option_copied result) (λ (k : KeptSeen).
            AllByRecursion (λ (other : KeptSeen). may_be_early other ≡ true → waits_before other k ≡ false) self.now.waiting.pending) }
        ensures facts { IsStock self.now }
    {
        pending::next_weak(self.pending.as_slice())
    }
}

impl Payloads for Store {
    ghost use Rattle.std.specs.Prelude.{◌≡◌};
    ghost use Rattle.std.specs.Option.{option_copied};
    ghost use Rattle.tw_types.specs.Updates.{find_update};
    ghost use Rattle.tw_types.specs.Waiting.{payloads_of};
    ghost use Rattle.update_store.specs.Stock.{IsStock};

    ghost payloads = { λ s. payloads_of s.waiting };

    /// A pending update with this id, else a payload that is kept with the held decision.
    fn find(&self, id: &UpdateId) -> Option<&Kept>
        ensures exact { option_copied result ≡ find_update id.now (payloads_of self.now.waiting) }
        ensures facts { IsStock self.now }
    {
        find_in_both(id, self.pending.as_slice(), self.payloads.as_slice())
    }
}
