//! What a machine promises to those that apply payloads to it.

/// What a machine answers to a payload.
#[derive(Clone, Copy, Debug, PartialEq, Eq)]
pub enum Applied {
    /// The key has this value now.
    Put,
    /// The key had a value, and has none now.
    Removed,
    /// The key to remove has no value.
    Absent,
    /// The key is new, and there is no room for one more.
    TableFull,
    /// The payload is none of the commands.
    BadCommand,
    /// The payload comes before or behind its turn. A table has no turns, and never answers it.
    OutOfTurn,
    /// There is no room for one more of those of whom the machine keeps account. A table keeps account of nobody, and never
    /// answers it.
    NoRoom,
}

/// Bytes are no snapshot of a machine's content.
#[derive(Clone, Copy, Debug, PartialEq, Eq)]
pub struct BadSnapshot;

/// A machine to which payloads are applied, one after the other, and which answers each. Its content can be written down as bytes,
/// a snapshot of at most 4,096, and restored from these.
///
/// Its content is what contracts see of it. Content and answer after a payload follow from the content before and from the
/// payload alone. Not each value that contracts can name need be a content: a law says which are.
pub trait Machine: Drop {
    ghost use Rattle.std.specs.Prelude.{◌≡◌, ℕ, List, length, take, drop, Option, Some, None, OnOk, OnErr};
    ghost use Rattle.app_table.specs.Machine.{MachineLaws};
    ghost use Rattle.app_table.specs.declared.machine.Applied.{Applied};

    /// The content of a machine to which nothing was applied.
    ghost empty: { Self };

    /// The content after a payload, from the content before.
    ghost after: { Self → List ℕ → Self };

    /// The answer to a payload, from the content before.
    ghost answer: { Self → List ℕ → Applied };

    /// Which values are contents.
    ghost is_content: { Self → Type 0 };

    /// The snapshot of a content.
    ghost snapshot_of: { Self → List ℕ };

    /// The content that bytes stand for, or none.
    ghost stood_for: { List ℕ → Option Self };

    /// Applies a payload of any length, and takes no memory.
    fn apply(&mut self, payload: &[u8]) -> Applied
        ensures content { self.new ≡ after self.old payload.now }
        ensures answer { result ≡ answer self.old payload.now };

    /// Writes the snapshot of the content at the front of `out`, and answers how many bytes it has, from 1 to 4,096. What is
    /// behind them stays.
    fn snapshot(&self, out: &mut [u8; 4096]) -> usize
        ensures content { is_content self.now }
        ensures length { result ≡ length (snapshot_of self.now) }
        ensures written { take result out.new ≡ snapshot_of self.now }
        ensures rest { drop result out.new ≡ drop result out.old };

    /// Has the content that the bytes stand for from now on. `BadSnapshot` comes exactly where they stand for none, and then nothing
    /// changes. It takes no memory.
    fn restore(&mut self, bytes: &[u8]) -> Result<(), BadSnapshot>
        ensures restored { OnOk result (stood_for bytes.now ≡ Some self.new) }
        ensures refused { OnErr result (stood_for bytes.now ≡ None) }
        ensures same { OnErr result (self.new ≡ self.old) };

    /// What holds of its contents.
    ghost laws: { MachineLaws is_content empty after snapshot_of stood_for };
}
