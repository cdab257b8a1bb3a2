//! Laws of machines and tables. Each is the contract of a function that does nothing.

ghost use Rattle.std.specs.Prelude.{◌≡◌, ℕ, ◌<◌, ◌≤◌, ◌≢◌, ◌^◌, ◌==◌, ◌⊎◌, ◌↔◌, if◌then◌else◌, List, [], ◌∷◌, ◌++◌, length, Some, None, IsSome, Option};
ghost use Rattle.std.specs.List.{AllByRecursion};
ghost use Rattle.app_table.specs.declared.machine.Applied.TheVariants as answers;
ghost use Rattle.app_table.specs.Machine.{AreBytes, content_after, snapshots_of, IsStart, IsSnapshotBytes};
ghost use Rattle.app_table.specs.Snapshots.{IsContent, table_bytes, table_of_bytes};
ghost use Rattle.app_table.specs.Table.{Entry, IsTable, value_at, with_value, without, key_of, value_of, after_payload, payload_answer, put_payload, remove_payload, after_put, put_answer, remove_answer};

use crate::machine::Machine;

/// What a machine has after some payloads and one more is what the last one makes of its content after the others. So what it
/// has after some payloads and others behind them is what these make of its content after the first ones.
pub fn one_payload_more<A: Machine>()
    ensures one { (content : A) (payloads : List (List ℕ)) (payload : List ℕ) →
        content_after A.after content (payloads ++ payload ∷ []) ≡ A.after (content_after A.after content payloads) payload }
    ensures some { (content : A) (payloads others : List (List ℕ)) →
        content_after A.after content (payloads ++ others) ≡ content_after A.after (content_after A.after content payloads) others }
{}

/// A snapshot is as good as what it was taken of. Cut a list of payloads anywhere, start from the snapshot there and go on: the snapshot at
/// the end is the same (`goes_on`). The snapshot of what was reached stands for a content, in 1 to 4,096 bytes (`stands`). And what is restored
/// from a snapshot and given further payloads is what was snapshot, given them (`restored`).
pub fn snapshots_go_on<A: Machine>()
    ensures goes_on { (start : Option (List ℕ)) (payloads others : List (List ℕ)) → IsStart (snapshots_of A.empty A.after A.snapshot_of A.stood_for) start → AllByRecursion AreBytes payloads →
        (snapshots_of A.empty A.after A.snapshot_of A.stood_for).taken (Some ((snapshots_of A.empty A.after A.snapshot_of A.stood_for).taken start payloads)) others
        ≡ (snapshots_of A.empty A.after A.snapshot_of A.stood_for).taken start (payloads ++ others) }
    ensures stands { (start : Option (List ℕ)) (payloads : List (List ℕ)) → IsStart (snapshots_of A.empty A.after A.snapshot_of A.stood_for) start → AllByRecursion AreBytes payloads →
        IsSnapshotBytes (snapshots_of A.empty A.after A.snapshot_of A.stood_for) ((snapshots_of A.empty A.after A.snapshot_of A.stood_for).taken start payloads) }
    ensures restored { (content other : A) (payloads : List (List ℕ)) → A.is_content content → A.stood_for (A.snapshot_of content) ≡ Some other →
        content_after A.after other payloads ≡ content_after A.after content payloads }
{}

/// Each table has its snapshot, and the bytes that stand for a table are its snapshot: no other bytes do.
pub fn snapshots_are_of_one_table()
    ensures again { (entries : List Entry) → IsContent entries → table_of_bytes (table_bytes entries) ≡ Some entries }
    ensures one { (snapshot : List ℕ) (entries : List Entry) → AreBytes snapshot → table_of_bytes snapshot ≡ Some entries → snapshot ≡ table_bytes entries }
{}

/// A table is a map. A key that was put has the value, one that was removed has none, and every other key has what it had. It
/// stays a table whatever comes.
pub fn tables_are_maps()
    ensures put { (entries : List Entry) (key value other : ℕ) →
        value_at other (with_value key value entries) ≡ if other == key then Some value else value_at other entries }
    ensures removed { (entries : List Entry) (key other : ℕ) →
        value_at other (without key entries) ≡ if other == key then None else value_at other entries }
    ensures absent { (entries : List Entry) (key : ℕ) → IsTable entries → value_at key entries ≡ None → without key entries ≡ entries }
    ensures table { (entries : List Entry) (payload : List ℕ) → IsTable entries → IsTable (after_payload entries payload) }
    ensures same { (some others : List Entry) → IsTable some → IsTable others →
        ((key : ℕ) → value_at key some ≡ value_at key others) → some ≡ others }
{}

/// Each answer of a table comes exactly where its cause is there, and tells what was left: after Put the key of the payload has
/// its value, after Removed it has none, and every other key has what it had; after any other answer all is as it was.
pub fn answers_have_their_causes()
    ensures put { (entries : List Entry) (payload : List ℕ) → (payload_answer entries payload ≡ answers.Put) ↔
        ((length payload ≡ 12) × (IsSome (value_at (key_of payload) entries) ⊎ (length entries < 256))) }
    ensures removed { (entries : List Entry) (payload : List ℕ) → (payload_answer entries payload ≡ answers.Removed) ↔
        ((length payload ≡ 4) × IsSome (value_at (key_of payload) entries)) }
    ensures absent { (entries : List Entry) (payload : List ℕ) → (payload_answer entries payload ≡ answers.Absent) ↔
        ((length payload ≡ 4) × (value_at (key_of payload) entries ≡ None)) }
    ensures full { (entries : List Entry) (payload : List ℕ) → IsTable entries → (payload_answer entries payload ≡ answers.TableFull) ↔
        ((length payload ≡ 12) × (value_at (key_of payload) entries ≡ None) × (length entries ≡ 256)) }
    ensures bad { (entries : List Entry) (payload : List ℕ) → (payload_answer entries payload ≡ answers.BadCommand) ↔
        ((length payload ≢ 12) × (length payload ≢ 4)) }
    ensures never { (entries : List Entry) (payload : List ℕ) →
        (payload_answer entries payload ≢ answers.OutOfTurn) × (payload_answer entries payload ≢ answers.NoRoom) }
    ensures value { (entries : List Entry) (payload : List ℕ) (other : ℕ) → payload_answer entries payload ≡ answers.Put →
        value_at other (after_payload entries payload) ≡ if other == key_of payload then Some (value_of payload) else value_at other entries }
    ensures gone { (entries : List Entry) (payload : List ℕ) (other : ℕ) → payload_answer entries payload ≡ answers.Removed →
        value_at other (after_payload entries payload) ≡ if other == key_of payload then None else value_at other entries }
    ensures same { (entries : List Entry) (payload : List ℕ) → IsTable entries →
        (payload_answer entries payload ≡ answers.Absent) ⊎ (payload_answer entries payload ≡ answers.TableFull) ⊎ (payload_answer entries payload ≡ answers.BadCommand) →
        after_payload entries payload ≡ entries }
{}

/// Each put and each removal has a payload.
pub fn commands_have_payloads()
    ensures put { (entries : List Entry) (key value : ℕ) → key < 2 ^ 32 → value < 2 ^ 64 →
        (after_payload entries (put_payload key value) ≡ after_put key value entries) × (payload_answer entries (put_payload key value) ≡ put_answer key entries) }
    ensures removed { (entries : List Entry) (key : ℕ) → key < 2 ^ 32 →
        (after_payload entries (remove_payload key) ≡ without key entries) × (payload_answer entries (remove_payload key) ≡ remove_answer key entries) }
{}
