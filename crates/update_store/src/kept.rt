//! Payloads of updates: how one is found, and which of them a decision wants.

ghost use Rattle.std.specs.Prelude.{◌≡◌, ◌≤◌, ◌++◌, length, map, find, not, option_copied};
ghost use Rattle.std.specs.List.{list_any};
ghost use Rattle.tw_types.specs.declared.message.Entry.{Entry as EntrySeen};
ghost use Rattle.tw_types.specs.declared.message.UpdateId.{UpdateId as IdSeen};
ghost use Rattle.tw_types.specs.Updates.{is_same_id, find_update, has_update};
ghost use Rattle.tw_types.specs.Waiting.{entries_from, payloads_for};

use tw_types::{Decision, Entry, Kept, Listed, UpdateId};

/// Payloads kept with a held decision: at most one for each entry of a window.
pub(crate) type HeldPayloads = Listed<Kept, 32>;

/// The first of some updates that has the id.
pub(crate) fn find_update<'a>(id: &UpdateId, updates: &'a [Kept]) -> Option<&'a Kept>
    ensures { option_copied result ≡ find_update id.now updates.now }
{
    updates.iter().find(|kept| kept.entry.id == *id)
}

/// The first update that has the id, of pending ones before those that are kept with a held decision.
pub(crate) fn find_in_both<'a>(
    id: &UpdateId,
    pending: &'a [Kept],
    held: &'a [Kept],
) -> Option<&'a Kept>
    ensures { option_copied result ≡ find_update id.now (pending.now ++ held.now) }
{
    find_update(id, pending).or(find_update(id, held))
}

/// Whether one of some updates has the id.
pub(crate) fn has_update(id: &UpdateId, updates: &[Kept]) -> bool
    ensures { result ≡ has_update id.now updates.now }
{
    updates.iter().any(|kept| kept.entry.id == *id)
}

/// The entries of a decision's window from this position on.
pub(crate) fn entries_from(first: u64, d: &Decision) -> &[Entry]
    ensures exact { result.now ≡ entries_from first d.now }
    ensures window { length d.now.window.items ≤ 32 }
{
    let window = d.window.as_slice();
    let skipped = first.saturating_sub(d.low).min(window.len() as u64) as usize;
    &window[skipped..]
}

/// Whether one of these entries has the id.
pub(crate) fn wants(id: &UpdateId, entries: &[Entry]) -> bool
    ensures { result ≡ list_any (λ (e : EntrySeen). is_same_id e.id id.now) entries.now }
{
    entries.iter().any(|entry| entry.id == *id)
}

/// The first id of these entries that no payload has.
pub(crate) fn first_hole(entries: &[Entry], payloads: &[Kept]) -> Option<UpdateId>
    ensures { result ≡ find (λ (id : IdSeen). not (has_update id payloads.now)) (map (λ (e : EntrySeen). e.id) entries.now) }
{
    entries
        .iter()
        .map(|entry| entry.id)
        .find(|id| !has_update(id, payloads))
}

/// Copies what is found for the ids of these entries, once for each.
pub(crate) fn collect(found: &mut HeldPayloads, entries: &[Entry], pending: &[Kept], held: &[Kept])
    requires { length entries.now ≤ 32 }
    ensures { found.new ≡ payloads_for (map (λ (e : EntrySeen). e.id) entries.now) (pending.now ++ held.now) }
{
    found.clear();
    for entry in entries {
        if !has_update(&entry.id, found.as_slice()) {
            if let Some(kept) = find_in_both(&entry.id, pending, held) {
                found.push(kept.copy());
            }
        }
    }
}
