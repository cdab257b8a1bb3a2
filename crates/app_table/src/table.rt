//! The table: a map from `u32` to `u64`.

ghost use Rattle.std.specs.Prelude.{◌≡◌, ◌≤◌, nat_le, ℕ, List, [], length, true, IfOk, MatchResult, vec_capacity};
ghost use Rattle.app_table.specs.Snapshots.{IsContent, table_bytes, is_snapshot, entries_of};
ghost use Rattle.app_table.specs.Table.{IsTable, table_room, key_of, value_of, put_answer, after_put, remove_answer, without};
ghost use Rattle.app_table.specs.Places.{IsPlace, IsGap};

use crate::machine::{Applied, BadSnapshot, Machine};
use crate::snapshot;
use std::alloc::Global;
use std::marker::Model;
use tw_num::WantOfMemory;

/// So many keys a table has at most.
const ROOM: usize = 256;

/// A map from `u32` to `u64` of at most 256 keys. Contracts see it as the list of its entries, keys ascending.
///
/// A payload of 12 bytes, a key of 4 and a value of 8, puts the value: Put, or TableFull where the key is new and there are 256.
/// One of 4 bytes, a key, removes it: Removed, or Absent where it has no value. Any other is BadCommand. Numbers have their
/// highest byte first. Absent, TableFull and BadCommand change nothing.
#[derive(Drop)]
pub struct Table {
    entries: Vec<(u32, u64)>,
}

impl Model for Table {
    ghost use Rattle.std.specs.Prelude.{ℕ, List, ◌≤◌, vec_capacity};
    ghost use Rattle.app_table.specs.Snapshots.{IsContent};

    ghost Value = { List (ℕ × ℕ) };

    ghost view = { λ t. t.entries.items };

    ghost invariant = { λ t. IsContent t.entries.items × (256 ≤ vec_capacity t.entries) };
}

impl Table {
    /// A table with no entry. All the room that it ever needs is taken here.
    pub fn new(alloc: Global) -> Result<Self, WantOfMemory>
        ensures { IfOk result (λ t. t ≡ []) }
    {
        Ok(Table {
            entries: Vec::with_capacity(alloc, ROOM)?,
        })
    }

    /// Each key that has a value, with the value, keys ascending.
    pub fn entries(&self) -> &[(u32, u64)]
        ensures entries { result.now ≡ self.now }
        ensures table { IsTable self.now }
    {
        &self.entries
    }

    /// Whether there is no room for one more key.
    fn is_full(&self) -> bool
        ensures { result ≡ nat_le table_room (length self.now) }
    {
        self.entries.len() == ROOM
    }

    fn put(&mut self, key: u32, value: u64) -> Applied
        ensures answer { result ≡ put_answer key self.old }
        ensures content { self.new ≡ after_put key value self.old }
    {
        match place_of(key, &self.entries) {
            Ok(place) => {
                put_over(&mut self.entries, place, key, value);
                Applied::Put
            }
            Err(_) if self.is_full() => Applied::TableFull,
            Err(place) => {
                let _ = self.entries.insert(place, (key, value));
                Applied::Put
            }
        }
    }

    fn remove(&mut self, key: u32) -> Applied
        ensures answer { result ≡ remove_answer key self.old }
        ensures content { self.new ≡ without key self.old }
    {
        match place_of(key, &self.entries) {
            Ok(place) => {
                self.entries.remove(place);
                Applied::Removed
            }
            Err(_) => Applied::Absent,
        }
    }
}

impl Machine for Table {
    ghost use Rattle.std.specs.Prelude.{[]};
    ghost use Rattle.app_table.specs.Snapshots.{IsContent, table_bytes, table_of_bytes};
    ghost use Rattle.app_table.specs.Table.{after_payload, payload_answer};
    ghost use Rattle.app_table.specs.TableLaws.{table_laws};

    ghost empty = { [] };

    ghost after = { after_payload };

    ghost answer = { payload_answer };

    ghost is_content = { IsContent };

    ghost snapshot_of = { table_bytes };

    ghost stood_for = { table_of_bytes };

    fn apply(&mut self, payload: &[u8]) -> Applied {
        match payload.len() {
            12 => self.put(key_of(payload), value_of(payload)),
            4 => self.remove(key_of(payload)),
            _ => Applied::BadCommand,
        }
    }

    fn snapshot(&self, out: &mut [u8; 4096]) -> usize {
        snapshot::write(&self.entries, out)
    }

    fn restore(&mut self, bytes: &[u8]) -> Result<(), BadSnapshot> {
        if !snapshot::is_one(bytes) {
            return Err(BadSnapshot);
        }
        fill(&mut self.entries, bytes);
        Ok(())
    }

    ghost laws = { table_laws };
}

/// Where the key stands among entries, or where it would go.
fn place_of(key: u32, entries: &[(u32, u64)]) -> Result<usize, usize>
    requires { IsTable entries.now }
    ensures { MatchResult result (IsPlace key entries.now) (IsGap key entries.now) }
{
    entries.binary_search_by_key(&key, |&(key, _)| key)
}

/// Gives the key at this place another value.
fn put_over(entries: &mut Vec<(u32, u64)>, place: usize, key: u32, value: u64)
    requires { IsPlace key entries.old.items place }
    ensures content { entries.new.items ≡ after_put key value entries.old.items }
    ensures room { vec_capacity entries.new ≡ vec_capacity entries.old }
{
    entries[place] = (key, value);
}

/// Has the entries of a snapshot in place of others.
fn fill(entries: &mut Vec<(u32, u64)>, bytes: &[u8])
    requires one { is_snapshot bytes.now ≡ true }
    requires room { 256 ≤ vec_capacity entries.old }
    ensures content { entries.new.items ≡ entries_of bytes.now }
    ensures room { 256 ≤ vec_capacity entries.new }
{
    entries.clear();
    for place in 0..snapshot::count(bytes) {
        let _ = entries.push(snapshot::entry(bytes, place));
    }
}

/// The key in the first four bytes.
fn key_of(payload: &[u8]) -> u32
    requires { 4 ≤ length payload.now }
    ensures { result ≡ key_of payload.now }
{
    u32::from_be_bytes([payload[0], payload[1], payload[2], payload[3]])
}

/// The value in the eight bytes behind the key.
fn value_of(payload: &[u8]) -> u64
    requires { 12 ≤ length payload.now }
    ensures { result ≡ value_of payload.now }
{
    u64::from_be_bytes([
        payload[4],
        payload[5],
        payload[6],
        payload[7],
        payload[8],
        payload[9],
        payload[10],
        payload[11],
    ])
}
