//! Calls of `app_table`.

ghost use Rattle.std.specs.Prelude.{◌≡◌, ℕ, List, [], ◌∷◌, ◌++◌};
ghost use Rattle.app_table.specs.Machine.{content_after};

use app_table::{Applied, BadSnapshot, Machine, Table};
use call_words::{Words, shown};
use std::alloc::{AllocError, Global};

/// What a machine answers to a payload. Where some payloads were applied to it, one more was.
fn answer<A: Machine>(machine: &mut A, payload: &[u8]) -> Applied
    ensures { (payloads : List (List ℕ)) → machine.old ≡ content_after A.after A.empty payloads →
        machine.new ≡ content_after A.after A.empty (payloads ++ payload.now ∷ []) }
{
    machine.apply(payload)
}

/// The next word as a number of bytes, and so many words as these.
fn payload(alloc: Global, words: &mut Words<'_>) -> Result<Vec<u8>, AllocError> {
    let mut payload = Vec::new(alloc);
    for _ in 0..words.number(4096) {
        payload.push(words.byte(u8::MAX))?;
    }
    Ok(payload)
}

pub fn new(alloc: Global) -> Result<Table, AllocError> {
    Table::new(alloc).or(Err(AllocError))
}

/// The bytes of a machine's snapshot.
fn snapshot<A: Machine>(alloc: Global, machine: &A) -> Result<Vec<u8>, AllocError> {
    let mut room = [0; 4096];
    let length = machine.snapshot(&mut room);
    let mut bytes = Vec::new(alloc);
    for byte in room.iter().take(length) {
        bytes.push(*byte)?;
    }
    Ok(bytes)
}

/// What a machine answers to bytes that it is to be restored from.
fn restore<A: Machine>(machine: &mut A, bytes: &[u8]) -> Result<(), BadSnapshot> {
    machine.restore(bytes)
}

/// `new`, which makes the table, `apply` with the payload, which gives the answer, `entries`, `snapshot`, which gives the bytes, `restore` with
/// bytes, and `again`, which restores the table from its own snapshot.
pub fn call(table: &mut Table, alloc: Global, words: &mut Words<'_>) -> Result<String, AllocError> {
    match words.among(&["new", "apply", "entries", "snapshot", "restore", "again"]) {
        0 => {
            *table = new(alloc)?;
            Ok(String::new(alloc))
        }
        1 => {
            let payload = payload(alloc, words)?;
            shown(alloc, &answer(table, &payload))
        }
        2 => shown(alloc, &table.entries()),
        3 => shown(alloc, &snapshot(alloc, table)?.as_slice()),
        4 => {
            let bytes = payload(alloc, words)?;
            shown(alloc, &restore(table, &bytes))
        }
        5 => {
            let bytes = snapshot(alloc, table)?;
            *table = new(alloc)?;
            shown(alloc, &restore(table, &bytes))
        }
        _ => Ok(String::new(alloc)),
    }
}
