//! A piece that is put into a room.

ghost use Rattle.std.specs.Prelude.{◌≡◌, ◌≤◌, ◌+◌, ◌++◌, length, take};

/// Puts a piece at this place of a room.
pub(crate) fn put(room: &mut [u8], at: usize, piece: &[u8])
    requires { at + length piece.now ≤ length room.old }
    ensures front { take (at + length piece.now) room.new ≡ take at room.old ++ piece.now }
    ensures room { length room.new ≡ length room.old }
{
    room[at..at + piece.len()].copy_from_slice(piece);
}
