//! The bytes of a table: a count, and then each entry.

ghost use Rattle.std.specs.Prelude.{◌≡◌, ◌≤◌, ◌<◌, ◌+◌, ◌*◌, ◌++◌, ℕ, List, length, take, drop, true};
ghost use Rattle.app_table.specs.Snapshots.{entry_bytes, table_bytes, count_in, entry_in, entries_of, is_snapshot, ascend, entries_in};
ghost use Rattle.app_table.specs.Table.{table_room};

/// So many bytes the count has.
const COUNT: usize = 2;

/// So many bytes an entry has: four of its key, eight of its value.
const ENTRY: usize = 12;

/// Writes some bytes at a place.
fn put(out: &mut [u8; 4096], place: usize, bytes: &[u8])
    requires { place + length bytes.now ≤ 4096 }
    ensures { out.new ≡ take place out.old ++ (bytes.now ++ drop (place + length bytes.now) out.old) }
{
    let end = place + bytes.len();
    out[place..end].copy_from_slice(bytes);
}

/// Key and value of an entry, the highest byte of each first.
fn bytes_of(key: u32, value: u64) -> [u8; 12]
    ensures { result ≡ entry_bytes (key, value) }
{
    let [a, b, c, d] = key.to_be_bytes();
    let [e, f, g, h, i, j, k, l] = value.to_be_bytes();
    [a, b, c, d, e, f, g, h, i, j, k, l]
}

/// Writes the snapshot of these entries at the front of `out`, and answers its length.
pub fn write(entries: &[(u32, u64)], out: &mut [u8; 4096]) -> usize
    requires { length entries.now ≤ 256 }
    ensures length { result ≡ length (table_bytes entries.now) }
    ensures written { out.new ≡ table_bytes entries.now ++ drop result out.old }
{
    let count = entries.len() as u16;
    put(out, 0, &count.to_be_bytes());
    let mut end = COUNT;
    for &(key, value) in entries {
        put(out, end, &bytes_of(key, value));
        end += ENTRY;
    }
    end
}

/// How many entries the bytes say that they have.
pub fn count(bytes: &[u8]) -> usize
    requires { 2 ≤ length bytes.now }
    ensures { result ≡ count_in bytes.now }
{
    usize::from(u16::from_be_bytes([bytes[0], bytes[1]]))
}

/// The entry of twelve bytes.
fn entry_at(bytes: &[u8]) -> (u32, u64)
    requires { length bytes.now ≡ 12 }
    ensures { result ≡ entry_in bytes.now }
{
    let key = u32::from_be_bytes([bytes[0], bytes[1], bytes[2], bytes[3]]);
    let value = u64::from_be_bytes([
        bytes[4], bytes[5], bytes[6], bytes[7], bytes[8], bytes[9], bytes[10], bytes[11],
    ]);
    (key, value)
}

/// The entry at a place of a snapshot, counted from 0.
pub fn entry(bytes: &[u8], place: usize) -> (u32, u64)
    requires few { place < 256 }
    requires within { 2 + 12 * place + 12 ≤ length bytes.now }
    ensures { result ≡ entry_in (drop (2 + 12 * place) bytes.now) }
{
    let at = COUNT + ENTRY * place;
    entry_at(&bytes[at..at + ENTRY])
}

/// Whether the keys of so many entries ascend.
fn ascend(bytes: &[u8], count: usize) -> bool
    requires few { count ≤ 256 }
    requires within { length bytes.now ≡ 2 + 12 * count }
    ensures { result ≡ ascend (entries_in count (drop 2 bytes.now)) }
{
    for place in 1..count {
        let (before, _) = entry(bytes, place - 1);
        let (key, _) = entry(bytes, place);
        if key <= before {
            return false;
        }
    }
    true
}

/// Whether the bytes are a snapshot of a table.
pub fn is_one(bytes: &[u8]) -> bool
    ensures { result ≡ is_snapshot bytes.now }
{
    if bytes.len() < COUNT {
        return false;
    }
    let count = count(bytes);
    count <= 256 && bytes.len() == COUNT + ENTRY * count && ascend(bytes, count)
}
