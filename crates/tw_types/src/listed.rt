//! Lists with a room that was taken when they were made. What must never take memory again keeps its items in one.

ghost use Rattle.std.specs.Prelude.{◌≡◌, ◌+◌, ◌<◌, ◌≤◌, ◌∷◌, [], ◌++◌, None, max, take, vec_len, vec_capacity};
ghost use Rattle.tw_types.specs.declared.datagram.Body.TheVariants as bodies;

use crate::datagram::{Body, Datagram, Head};
use std::alloc::Global;
use std::marker::Model;
use tw_num::WantOfMemory;

/// A list of at most `N` items, whose room was taken when it was made. Contracts see it as the list of its items.
#[derive(Drop)]
pub struct Listed<T, const N: usize> {
    /// Its items, and behind them some that were taken out, whose places are used again.
    items: Vec<T>,
    count: usize,
}

impl<T, const N: usize> Model for Listed<T, N> {
    ghost use Rattle.std.specs.Prelude.{List, length, take, ◌≤◌, vec_capacity};

    ghost Value = { List T };

    ghost view = { λ l. take l.count l.items.items };

    ghost invariant = { λ l. (N ≤ vec_capacity l.items) × ((length l.items.items ≤ N) × (l.count ≤ length l.items.items)) };
}

impl<T, const N: usize> Listed<T, N> {
    ghost use Rattle.std.specs.Prelude.{◌≡◌, ◌<◌, ◌≤◌, [], ◌∷◌, ◌++◌, length, insert, remove, slice_index_or, slice_set, IfOk};

    /// An empty list with room for `N` items.
    pub fn new(alloc: Global) -> Result<Self, WantOfMemory>
        ensures { IfOk result (λ l. l ≡ []) }
    {
        Ok(Listed {
            items: Vec::with_capacity(alloc, N)?,
            count: 0,
        })
    }

    /// All items, in the order in which they came.
    pub fn as_slice(&self) -> &[T]
        ensures items { result.now ≡ self.now }
        ensures few { length result.now ≤ N }
    {
        &self.items[..self.count]
    }

    /// Takes all items out. Their places are used again.
    pub fn clear(&mut self)
    where
        T: Drop,
        ensures { self.new ≡ [] }
    {
        self.count = 0;
    }

    /// Adds an item at the end of a list that has room.
    pub fn push(&mut self, item: T)
    where
        T: Drop,
        requires { length self.old < N }
        ensures { self.new ≡ self.old ++ item ∷ [] }
    {
        self.items.truncate(self.count);
        let _ = self.items.push(item);
        self.count += 1;
    }

    /// Puts an item at this place of a list that has room, before those from there on.
    pub fn insert(&mut self, place: usize, item: T)
    where
        T: Drop,
        requires room { length self.old < N }
        requires place { place ≤ length self.old }
        ensures { self.new ≡ insert self.old place item }
    {
        self.items.truncate(self.count);
        let _ = self.items.insert(place, item);
        self.count += 1;
    }

    /// Takes the item at this place out. Those behind it move up.
    pub fn remove(&mut self, place: usize) -> T
        requires { place < length self.old }
        ensures item { result ≡ slice_index_or self.old place result }
        ensures items { self.new ≡ remove self.old place }
    {
        self.count -= 1;
        self.items.remove(place)
    }

    /// Puts an item into this place, in place of the one that stands there.
    pub fn set(&mut self, place: usize, item: T)
    where
        T: Drop,
        requires { place < length self.old }
        ensures { self.new ≡ slice_set self.old place item }
    {
        self.items.truncate(self.count);
        self.items[place] = item;
    }
}

/// Adds any datagram. It isn't inlined, since a function pays at entry for the room of all that it may build.
#[inline(never)]
fn push_any(items: &mut Vec<(u8, Datagram)>, head: Head)
    requires { vec_len items.old < vec_capacity items.old }
    ensures items { items.new.items ≡ items.old.items ++ (0, record { head = head; body = bodies.Sync None }) ∷ [] }
    ensures capacity { vec_capacity items.old ≤ vec_capacity items.new }
{
    let body = Body::Sync { ready: None };
    let _ = items.push((0, Datagram { head, body }));
}

/// Makes a place behind the first `count` items, where there is none.
fn make_place(items: &mut Vec<(u8, Datagram)>, count: usize, head: Head)
    requires count { count ≤ vec_len items.old }
    requires room { count < vec_capacity items.old }
    ensures place { count < vec_len items.new }
    ensures same { take count items.new.items ≡ take count items.old.items }
    ensures few { vec_len items.new ≤ max (vec_len items.old) (count + 1) }
    ensures capacity { vec_capacity items.old ≤ vec_capacity items.new }
{
    if count == items.len() {
        push_any(items, head);
    }
}

impl<const N: usize> Listed<(u8, Datagram), N> {
    ghost use Rattle.std.specs.Prelude.{◌≡◌, ◌<◌, ◌∷◌, [], ◌++◌, length};

    /// Adds a datagram for `to` at the end of a list that has room. It is written where it stands, into the place of one that
    /// was taken out, if there is one: nothing of what the place held stays.
    pub fn send(&mut self, to: u8, head: Head, body: &Body)
        requires { length self.old < N }
        ensures { self.new ≡ self.old ++ (to, record { head = head; body = body.now }) ∷ [] }
    {
        make_place(&mut self.items, self.count, head);
        let sent = &mut self.items[self.count];
        sent.0 = to;
        sent.1.head = head;
        sent.1.body.copy_from(body);
        self.count += 1;
    }
}
