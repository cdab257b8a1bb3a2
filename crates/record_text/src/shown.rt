//! The entries that a snapshot of a table shows, whatever bytes it is.

ghost use Rattle.std.specs.Prelude.{◌≡◌, ◌≤◌, ◌<◌, ◌+◌, ◌*◌, ℕ, List, length, drop};
ghost use Rattle.app_table.specs.Snapshots.{IsContent, table_bytes, count_in, entry_in, entries_in, ascend};
ghost use Rattle.record_text.specs.Shown.{entries_shown};

use arrayvec::ArrayVec;

/// So many bytes the count has.
const COUNT: usize = 2;

/// So many bytes an entry has: four of its key, eight of its value.
const ENTRY: usize = 12;

/// How many entries the bytes say that they have.
fn count(bytes: &[u8]) -> usize
    requires { 2 ≤ length bytes.now }
    ensures { result ≡ count_in bytes.now }
{
    usize::from(u16::from_be_bytes([bytes[0], bytes[1]]))
}

/// The entry of twelve bytes.
fn entry_at(bytes: &[u8]) -> (u32, u64)
    requires { length bytes.now ≡ 12 }
    ensures { result ≡ entry_in bytes.now }
{
    let key = u32::from_be_bytes([bytes[0], bytes[1], bytes[2], bytes[3]]);
    let value = u64::from_be_bytes([
        bytes[4], bytes[5], bytes[6], bytes[7], bytes[8], bytes[9], bytes[10], bytes[11],
    ]);
    (key, value)
}

/// The entry at a place, counted from 0.
fn entry(bytes: &[u8], place: usize) -> (u32, u64)
    requires few { place < 256 }
    requires within { 2 + 12 * place + 12 ≤ length bytes.now }
    ensures { result ≡ entry_in (drop (2 + 12 * place) bytes.now) }
{
    let at = COUNT + ENTRY * place;
    entry_at(&bytes[at..at + ENTRY])
}

/// Has so many entries in place of others.
fn fill(bytes: &[u8], count: usize, entries: &mut ArrayVec<(u32, u64), 256>)
    requires few { count ≤ 256 }
    requires within { 2 + 12 * count ≤ length bytes.now }
    ensures { entries.new.items ≡ entries_in count (drop 2 bytes.now) }
{
    entries.clear();
    for place in 0..count {
        entries.push(entry(bytes, place));
    }
}

/// Whether the keys ascend.
fn ascend(entries: &[(u32, u64)]) -> bool
    ensures { result ≡ ascend entries.now }
{
    for place in 1..entries.len() {
        if entries[place].0 <= entries[place - 1].0 {
            return false;
        }
    }
    true
}

/// The entries at the front of the bytes of a snapshot, in place of those that were there: none where the bytes don't begin
/// with a count of at most 256 and so many entries, keys ascending. Bytes behind these don't matter.
#[tactic(auto, using(crate::proofs::ShownFacts::too_short, crate::proofs::ShownFacts::too_many, crate::proofs::ShownFacts::not_ascending, crate::proofs::ShownFacts::all_shown))]
pub fn show_entries(bytes: &[u8], entries: &mut ArrayVec<(u32, u64), 256>)
    ensures { entries.new.items ≡ entries_shown bytes.now }
{
    entries.clear();
    if bytes.len() < COUNT {
        return;
    }
    let count = count(bytes);
    if count > 256 || bytes.len() < COUNT + ENTRY * count {
        return;
    }
    fill(bytes, count, entries);
    if !ascend(entries) {
        entries.clear();
    }
}

/// The snapshot of a table shows its entries.
pub fn snapshots_show_their_entries()
    ensures { (entries : List (ℕ × ℕ)) → IsContent entries → entries_shown (table_bytes entries) ≡ entries }
{}
