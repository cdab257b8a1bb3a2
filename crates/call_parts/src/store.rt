//! Calls of `update_store`.

ghost use Rattle.std.specs.Prelude.{◌≡◌, ◌<◌, ◌≤◌};
ghost use Rattle.std.specs.List.{AllByRecursion};
ghost use Rattle.std.specs.Option.{option_copied};
ghost use Rattle.tw_types.specs.declared.message.Seat.{Seat as SeatSeen};
ghost use Rattle.tw_types.specs.Ranges.{Ascends};
ghost use Rattle.tw_types.specs.Decisions.{or_none};
ghost use Rattle.tw_types.specs.Waiting.{settled_by};

use crate::updates::{LAST_POSITION, Seats, kept, kept_text};
use call_words::{Words, shown};
use std::alloc::{AllocError, Global};
use tw_types::{Decision, Entry, Kept, Order, Payloads};
use update_store::{Put, Store};

/// The size of the team whose updates are stored.
const SIZE: u8 = 5;

/// A decision without seats: the position of its window, and the ids of the total weak updates there, after their count.
fn window(words: &mut Words<'_>) -> Decision {
    let mut d = Decision {
        low: words.number(LAST_POSITION),
        ..Decision::default()
    };
    for _ in 0..words.byte(32) {
        let _ = d.window.try_push(Entry {
            id: words.id(),
            order: Order::Total,
            ..Entry::default()
        });
    }
    d
}

/// Keeps what the view keeps pending.
fn settle(store: &mut Store, view: Option<&Decision>)
    ensures { store.new ≡ record (store.old) { waiting = settled_by (or_none (option_copied view.entry)) store.old.waiting } }
{
    match view {
        None => store.settle(&Decision::default()),
        Some(view) => store.settle(view),
    }
}

/// What becomes of an update, once what is pending is settled by the view.
fn put(store: &mut Store, view: Option<&Decision>, kept: &Kept) -> Put
    requires first { 1 ≤ kept.now.entry.id.seq }
    requires last { kept.now.entry.id.seq ≤ 4294967294 }
    requires size { store.old.n ≡ 5 }
    requires ascending { Ascends (or_none (option_copied view)).seats.items }
    requires below { AllByRecursion (λ (s : SeatSeen). s.member.who < 5) (or_none (option_copied view)).seats.items }
    ensures { store.new.n ≡ 5 }
{
    settle(store, view);
    store.put(view, kept)
}

/// The store that the last `new` made, and the seats of the decision that its process goes by.
#[derive(Drop)]
pub struct Stores {
    store: Store,
    view: Option<Seats>,
    ghost size: { store.n ≡ 5 },
}

impl Stores {
    pub fn new(alloc: Global) -> Result<Stores, AllocError> {
        match Store::new(alloc, SIZE) {
            Ok(store) => Ok(Stores { store, view: None }),
            Err(_) => Err(AllocError),
        }
    }

    pub fn store(&self) -> &Store {
        &self.store
    }

    /// The decision that the process goes by, with an empty window.
    pub fn view(&self) -> Decision
        ensures { Ascends result.seats.items }
    {
        match &self.view {
            None => Decision::default(),
            Some(seats) => seats.decision(0),
        }
    }

    fn put(&mut self, kept: &Kept) -> Put
        requires first { 1 ≤ kept.now.entry.id.seq }
        requires last { kept.now.entry.id.seq ≤ 4294967294 }
    {
        match self.view {
            None => put(&mut self.store, None, kept),
            Some(seats) => put(&mut self.store, Some(&seats.decision(0)), kept),
        }
    }

    fn renew(&mut self, alloc: Global) -> Result<(), AllocError> {
        *self = Stores::new(alloc)?;
        Ok(())
    }

    /// What becomes of the next words' update.
    fn put_next(&mut self, alloc: Global, words: &mut Words<'_>) -> Result<String, AllocError> {
        let kept = kept(words);
        if kept.entry.id.seq < 1 || kept.entry.id.seq == u32::MAX {
            words.are_wrong = true;
            return Ok(String::new(alloc));
        }
        shown(alloc, &self.put(&kept))
    }

    /// Changes what there is by the call at this place among those of `call`.
    fn change(
        &mut self,
        alloc: Global,
        place: usize,
        words: &mut Words<'_>,
    ) -> Result<(), AllocError> {
        match place {
            7 => return self.renew(alloc),
            8 => self.view = Some(Seats::read(words)),
            9 => self.view = None,
            10 => {
                let view = self.view();
                settle(&mut self.store, Some(&view));
            }
            11 => {
                let first = words.number(LAST_POSITION);
                let from = words.byte(SIZE);
                self.store.hold(&window(words), first, from);
            }
            12 => self.store.release(),
            13 => self.store.mark_early(&words.id()),
            _ => {}
        }
        Ok(())
    }

    /// `put` with an update, which gives what became of it. What is asked: `is-held` and `hole`; `is-hole`, `pending` and `early`,
    /// each with an id, the last of whether the payload that is found was delivered early; `next-weak`. The others change what
    /// there is: `new`; `view` with seats, and `no-view`; `settle`; `hold` with the first position whose payload is wanted, the
    /// process that has them, and the decision; `release`; `mark-early` with an id.
    pub fn call(&mut self, alloc: Global, words: &mut Words<'_>) -> Result<String, AllocError> {
        let calls = [
            "put",
            "is-held",
            "hole",
            "is-hole",
            "pending",
            "early",
            "next-weak",
            "new",
            "view",
            "no-view",
            "settle",
            "hold",
            "release",
            "mark-early",
        ];
        match words.among(&calls) {
            0 => self.put_next(alloc, words),
            1 => shown(alloc, &self.store.held().is_some()),
            2 => shown(alloc, &self.store.hole()),
            3 => shown(alloc, &self.store.is_hole(&words.id())),
            4 => kept_text(alloc, self.store.pending(&words.id())),
            5 => shown(alloc, &self.is_early(words)),
            6 => kept_text(alloc, self.store.next_weak()),
            place => {
                self.change(alloc, place, words)?;
                Ok(String::new(alloc))
            }
        }
    }

    /// Whether the payload that is found of this update was delivered early.
    fn is_early(&self, words: &mut Words<'_>) -> Option<bool> {
        let found = self.store.find(&words.id())?;
        Some(found.early)
    }
}
